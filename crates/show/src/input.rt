// Standard input, read to its end.
use std::io;
use std::io::Read;

// Fills the text from `from` on, as far as the input goes or the text has room, and says where the filled part ends. Nothing says that the input ends:
// the count is one that no run uses up.
pub fn read_text(rt: &HostRuntime, text: &mut [u8], from: usize) -> io::Result<usize> {
    let mut at = from;
    for _ in 0..u64::MAX {
        let Some(free) = text.get_mut(at..) else {
            break;
        };
        let got = rt.stdin().read(free)?;
        if got == 0 {
            break;
        }
        at = at.saturating_add(got).min(text.len());
    }
    Ok(at)
}

// Puts what was read before at the start of a longer text.
pub fn copy(head: &[u8], text: &mut [u8]) {
    let n = head.len().min(text.len());
    text[..n].copy_from_slice(&head[..n]);
}
