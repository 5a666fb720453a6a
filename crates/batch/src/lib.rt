// Many points at once, geographic to plane, over lent memory: pairs of latitude and longitude are read, three words a point are written. The sheet is checked once, its
// places are worked once, and its origin is read once.
#![tactic(auto)]

ghost use Rattle.std.specs.Prelude.{◌≡◌, true, ◌∷◌, [], ◌+◌, ◌*◌, ◌≤◌, ◌<◌, pos, length};
ghost use Rattle.std.proofs.lemmas.List.Edits.{sets};
ghost use Rattle.batch.specs.Batch.{one_if_answered, point_at, words_of, pairs, answered, after_pairs, taken, batch_told, batch_of, answers_of};

use refusals::Refusal;
use tables::Passed;

const MOST_POINTS: usize = 4_096;

// Whether so many words are a batch: pairs, not too many of them, and room for their answers.
fn is_taken(words: usize, room: usize) -> bool
    ensures { result ≡ taken words room }
{
    if words % 2 != 0 {
        return false;
    }
    if MOST_POINTS < words / 2 {
        return false;
    }
    3 * (words / 2) <= room
}

// One point's three words, written from `at` on; 1 where its number is 0, else 0.
fn put(answers: &mut [i32], at: usize, number: u32, x: i32, y: i32) -> u32
    requires { (at + 3 ≤ length answers.old) × (number < 2_147_483_648) }
    ensures { (result ≡ one_if_answered number) × (result ≤ 1) × (answers.new ≡ sets answers.old at (pos number ∷ x ∷ y ∷ [])) }
{
    answers[at] = number as i32;
    answers[at + 1] = x;
    answers[at + 2] = y;
    if number == 0 { 1 } else { 0 }
}

// Point i, answered at its place; 1 where its number is 0, else 0.
fn answer_one(sheet: Passed, points: &[i32], answers: &mut [i32], i: usize) -> u32
    requires { (2 * i + 1 < length points.now) × (3 * i + 3 ≤ length answers.old) }
    ensures { (result ≡ one_if_answered (point_at sheet.entry.bytes.now points.now i).number) × (result ≤ 1) × (answers.new ≡ sets answers.old (3 * i) (words_of (point_at sheet.entry.bytes.now points.now i))) }
{
    match forward::forward(sheet, points[2 * i], points[2 * i + 1]) {
        Ok(r) => put(answers, 3 * i, 0, r.x, r.y),
        Err(e) => put(answers, 3 * i, e.number(), 0, 0),
    }
}

// Every point, answered in turn; how many have number 0.
fn answer_all(sheet: Passed, points: &[i32], answers: &mut [i32]) -> u32
    requires { taken (length points.now) (length answers.old) ≡ true }
    ensures count { result ≡ answered sheet.entry.bytes.now points.now (pairs points.now) }
    ensures memory { answers.new ≡ after_pairs sheet.entry.bytes.now points.now (pairs points.now) answers.old }
{
    let mut count: u32 = 0;
    for i in 0..points.len() / 2 {
        count += answer_one(sheet, points, answers, i);
    }
    count
}

// A batch: 17, the check's number, or how many points have number 0, with every point's number, x and y in the answers; a refusal writes nothing, and the answers' unused tail stays.
pub fn batch(sheet: &[u8], points: &[i32], answers: &mut [i32]) -> Result<u32, Refusal>
    ensures answer { batch_told result ≡ batch_of sheet.now points.now answers.old }
    ensures memory { answers.new ≡ answers_of sheet.now points.now answers.old }
{
    if !is_taken(points.len(), answers.len()) {
        return Err(Refusal::Batch);
    }
    Ok(answer_all(tables::pass(sheet)?, points, answers))
}
