// Paumelu for C: a static library with the one symbol that C calls. Nothing is decided here.
#![tactic(auto)]

ghost use Rattle.std.specs.Prelude.{◌≡◌};
ghost use Rattle.paumelu.specs.Interface.{interface_answer, interface_tape};

// Reads items for C, by the entry code 0: the number is the result; place, items and events are written behind references.
#[unsafe(no_mangle)]
pub extern "C" fn paumelu_read(
    entry: u64,
    text: &[u8],
    limit: u64,
    tape: &mut [u8],
    place: &mut u64,
    items: &mut u64,
    events: &mut u64,
) -> u64
    ensures number { result ≡ (interface_answer entry text.now limit tape.old).number }
    ensures place { place.new ≡ (interface_answer entry text.now limit tape.old).place }
    ensures items { items.new ≡ (interface_answer entry text.now limit tape.old).items }
    ensures events { events.new ≡ (interface_answer entry text.now limit tape.old).events }
    ensures tape { tape.new ≡ interface_tape entry text.now limit tape.old }
{
    paumelu::paumelu_read(entry, text, limit, tape, place, items, events)
}
