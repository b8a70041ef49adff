// The polls: with content or with none, with long rows or short ones.
ghost use Rattle.std.specs.Prelude.{◌≡◌, [], ◌*◌, ◌≤◌, length, None, Some};
ghost use Rattle.store_rules.specs.Lookup.{entries_of};
ghost use Rattle.store_rules.specs.Store.{poll, short, row_width, bad_content};
ghost use Rattle.store_rules.specs.View.{Bodies, entries_seen};
ghost use Rattle.guards.specs.Recording.{bodies_in};
ghost use Rattle.decisions.specs.Courses.{form_of};
ghost use Rattle.decisions.specs.Polls.{content_given, IsWhole, LendsBodies, asks};
ghost use Rattle.answers.specs.Promises.{Always, AlwaysIn, HeldPerforms, HeldPerformsIn};
ghost use Rattle.polls.specs.Promises.{Passes, rows_in};

use answers::{Answer, Outcome};
use decisions::asked::{Given, Poll};
use decisions::poll::{course_of, stays};
use decisions::rows::{RowForm, Telling, put_row, row_width};
use guards::{GuardBodies, drop_guard};
use refusal::Refusal;
use store_rules::{Content, Held, count_of};

// Whether the content is too long, or its hashes are not one a nonce.
fn bad_content(given: Option<Given>) -> bool
    ensures { result ≡ bad_content (content_given given.entry) }
{
    match given {
        Some(given) => {
            let pairs = given.content.nonces.len();
            64 < pairs || given.content.hashes.len() != 32 * pairs
        }
        None => false,
    }
}

// What a poll that wrote n rows answers.
fn answer_of(form: RowForm, n: usize) -> Answer
    ensures { result ≡ rows_in form n }
{
    match form {
        RowForm::Long => Answer::Rows(n),
        RowForm::Short => Answer::ShortRows(n),
    }
}

// A poll's pass over the entries, which moves those that stay to the front, and returns how many rows it wrote.
fn pass(h: &mut Held, form: RowForm, poll: &Poll, rows: &mut [u64]) -> usize
    requires whole { IsWhole poll.now.given }
    requires room { row_width (form_of form) * length (entries_of poll.now.sender (entries_seen h.old)) ≤ length rows.old }
    ensures { (bodies : Bodies) → LendsBodies poll.now.given bodies → Passes form bodies h.old poll.now rows.old result h.new rows.new }
{
    let width = row_width(form);
    let mut n = 0;
    let mut w = 0;
    // By index: the entries move within the array that the loop reads.
    for j in 0..h.len.min(64) {
        // The store and its entry are read under one loan.
        let held: &Held = h;
        let Some(telling) = course_of(held, &held.entries[j], poll) else {
            if w < j {
                h.entries[w] = h.entries[j];
            }
            w += 1;
            continue;
        };
        let start = width * n;
        put_row(form, h.entries[j].frame, telling, poll, &mut rows[start..]);
        n += 1;
        let Telling::Rescued = telling else {
            h.entries[w] = stays(h.entries[j], telling, poll.head);
            w += 1;
            continue;
        };
        let guards = h.guards;
        let hash = h.entries[j].frame.hash;
        drop_guard(&mut h.labels, guards, hash);
    }
    h.len = w;
    n
}

// A poll of the store, which reads the guards' bodies only if content came. The sender's entries are counted first, since a refusal
// leaves the slice alone.
pub(crate) fn poll_inner(
    h: &mut Held,
    form: RowForm,
    poll: &Poll,
    rows: &mut [u64],
) -> Result<Answer, Refusal>
    ensures { (bodies : Bodies) → LendsBodies poll.now.given bodies →
        HeldPerformsIn (form_of form) bodies h.old (asks poll.now) rows.old [] (record { answer = result; store = h.new }) rows.new [] }
{
    if 256 < poll.known.len() {
        return Err(Refusal::ManyKnown);
    }
    if bad_content(poll.given) {
        return Err(Refusal::BadContent);
    }
    let need = row_width(form) * count_of(h.frames(), poll.sender);
    if rows.len() < need {
        return Err(Refusal::ShortSlice);
    }
    let n = pass(h, form, poll, rows);
    Ok(answer_of(form, n))
}

// A poll with no content: no guard's body is read.
fn poll_alone(
    mut h: Held,
    form: RowForm,
    sender: [u8; 20],
    head: u64,
    known: &[u64],
    rows: &mut [u64],
) -> Outcome<Held>
    ensures { AlwaysIn (form_of form) h (poll sender head known.now None) rows.old [] result rows.new [] }
{
    let poll = Poll {
        sender,
        head,
        known,
        given: None,
    };
    let answer = poll_inner(&mut h, form, &poll, rows);
    Outcome { answer, store: h }
}

// Polls a sender's frames at this head; the rows go to the slice.
pub fn poll(h: Held, sender: [u8; 20], head: u64, known: &[u64], rows: &mut [u64]) -> Outcome<Held>
    ensures { Always h (poll sender head known.now None) rows.old [] result rows.new [] }
{
    poll_alone(h, RowForm::Long, sender, head, known, rows)
}

// Polls a sender's frames at this head; short rows go to the slice.
pub fn poll_short(
    h: Held,
    sender: [u8; 20],
    head: u64,
    known: &[u64],
    rows: &mut [u64],
) -> Outcome<Held>
    ensures { AlwaysIn short h (poll sender head known.now None) rows.old [] result rows.new [] }
{
    poll_alone(h, RowForm::Short, sender, head, known, rows)
}

// A poll with content, by the guards' bodies.
fn poll_given(
    mut h: Held,
    form: RowForm,
    bodies: &GuardBodies,
    sender: [u8; 20],
    head: u64,
    known: &[u64],
    content: Content,
    rows: &mut [u64],
) -> Outcome<Held>
    ensures { HeldPerformsIn (form_of form) (bodies_in bodies.now) h
        (poll sender head known.now (Some (record { nonces = content.entry.nonces.now; hashes = content.entry.hashes.now })))
        rows.old [] result rows.new [] }
{
    let poll = Poll {
        sender,
        head,
        known,
        given: Some(Given { content, bodies }),
    };
    let answer = poll_inner(&mut h, form, &poll, rows);
    Outcome { answer, store: h }
}

// Polls with the current content: pairs of a nonce and a hash of 32 bytes. The guards' bodies are lent.
pub fn poll_with_content(
    h: Held,
    bodies: &GuardBodies,
    sender: [u8; 20],
    head: u64,
    known: &[u64],
    nonces: &[u64],
    hashes: &[u8],
    rows: &mut [u64],
) -> Outcome<Held>
    ensures { HeldPerforms (bodies_in bodies.now) h
        (poll sender head known.now (Some (record { nonces = nonces.entry.now; hashes = hashes.now })))
        rows.old [] result rows.new [] }
{
    let content = Content { nonces, hashes };
    poll_given(h, RowForm::Long, bodies, sender, head, known, content, rows)
}

// Polls with the current content; short rows go to the slice.
pub fn poll_short_with_content(
    h: Held,
    bodies: &GuardBodies,
    sender: [u8; 20],
    head: u64,
    known: &[u64],
    nonces: &[u64],
    hashes: &[u8],
    rows: &mut [u64],
) -> Outcome<Held>
    ensures { HeldPerformsIn short (bodies_in bodies.now) h
        (poll sender head known.now (Some (record { nonces = nonces.entry.now; hashes = hashes.now })))
        rows.old [] result rows.new [] }
{
    let content = Content { nonces, hashes };
    poll_given(
        h,
        RowForm::Short,
        bodies,
        sender,
        head,
        known,
        content,
        rows,
    )
}
