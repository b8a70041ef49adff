// An item of standard input: its head, which has its kind, the number of its bytes and the length of the output that is lent, and its
// bytes.
ghost use Rattle.std.specs.Prelude.{◌≤◌, length, IfSome, IfOk};

use console::Stop;

// One byte more than a journal may have, so that a longer one is refused.
pub(crate) const LONGEST: usize = 65537;

// The longest output that is lent: 64 records of 240 bytes.
pub(crate) const LENT: usize = 15360;

// What is done with an item's bytes, and how long the output is that is lent for it.
#[derive(Clone, Copy)]
pub(crate) enum Kind {
    Fold(usize),
    Restore,
    Rewrite(usize),
}

#[derive(Clone, Copy)]
pub(crate) struct Head {
    pub(crate) kind: Kind,
    pub(crate) len: usize,
    // how many bytes of standard input the item takes, its head included
    pub(crate) size: usize,
}

// Reads a whole slice from standard input.
fn fill(rt: HostRuntime, bytes: &mut [u8]) -> Result<(), Stop> {
    let got = console::read_input(rt, &mut *bytes).ok_or(Stop::Failed)?;
    if got < bytes.len() {
        return Err(Stop::Bad);
    }
    Ok(())
}

// The rest of a head that says how long the output is.
fn room(rt: HostRuntime) -> Result<usize, Stop> {
    let mut bytes = [0u8; 2];
    fill(rt, &mut bytes)?;
    let room = wire::number(&bytes, 0, 2) as usize;
    if LENT < room {
        return Err(Stop::Bad);
    }
    Ok(room)
}

// The head of the next item, or None at the end.
fn next_head(rt: HostRuntime) -> Result<Option<Head>, Stop> {
    let mut bytes = [0u8; 5];
    let got = console::read_input(rt, &mut bytes).ok_or(Stop::Failed)?;
    if got == 0 {
        return Ok(None);
    }
    if got < 5 {
        return Err(Stop::Bad);
    }
    let (kind, head_size) = match bytes[0] {
        0 => (Kind::Fold(room(rt)?), 7),
        1 => (Kind::Restore, 5),
        2 => (Kind::Rewrite(room(rt)?), 7),
        _ => return Err(Stop::Bad),
    };
    let len = wire::number(&bytes, 1, 4) as usize;
    if LONGEST < len {
        return Err(Stop::Bad);
    }
    let size = head_size + len;
    Ok(Some(Head { kind, len, size }))
}

// The head of the next item, its bytes at the front of a slice, where `left` bytes of input may still come; or None at the end.
pub(crate) fn next_item(
    rt: HostRuntime,
    left: usize,
    bytes: &mut [u8],
) -> Result<Option<Head>, Stop>
    ensures fits { IfOk result (λ next. IfSome next (λ head. head.len ≤ length bytes.new)) }
    ensures left { IfOk result (λ next. IfSome next (λ head. head.size ≤ left)) }
{
    let Some(head) = next_head(rt)? else {
        return Ok(None);
    };
    if left < head.size || bytes.len() < head.len {
        return Err(Stop::Bad);
    }
    fill(rt, &mut bytes[..head.len])?;
    Ok(Some(head))
}
