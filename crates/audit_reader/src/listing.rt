// What a line begins with: how many events there are, and whose event it lists.
ghost use Rattle.std.specs.Prelude.{◌≡◌, ℕ, ◌<◌, ◌≤◌, ◌++◌, List, Some, IfSome};
ghost use Rattle.event_words.specs.declared.record.LoggedEvent.{LoggedEvent as Logged};
ghost use Rattle.event_words.specs.Events.{caller_of};
ghost use Rattle.event_words.specs.ReportLines.{count_line, event_line};
ghost use Rattle.audit_reader.specs.Digits.{digit_at, leading, up_to};
ghost use Rattle.audit_reader.specs.LineFronts.{BeginsWith, number_front, event_front};

use event_words::Line;

fn digit(byte: u8) -> Option<u8>
    ensures value { result ≡ digit_at byte }
    ensures few { IfSome result (λ n. n < 10) }
{
    if b'0' <= byte && byte <= b'9' {
        Some(byte - b'0')
    } else {
        None
    }
}

/// The number below 17 that a text begins with, before a space.
fn number_at_front(text: &[u8]) -> Option<u8>
    ensures some { (n : ℕ) → n < 17 → BeginsWith (number_front n) text.now → result ≡ Some n }
    ensures only { IfSome result (λ n. (n < 17) × BeginsWith (number_front n) text.now) }
{
    if text.len() < 2 {
        return None;
    }
    if text[1] == b' ' {
        return digit(text[0]);
    }
    let ones = digit(text[1])?;
    if text.len() < 3 || text[0] != b'1' || text[2] != b' ' || 6 < ones {
        return None;
    }
    Some(10 + ones)
}

/// Whose event the first of these lines lists, where it begins with this place.
pub fn caller_in(bytes: &[u8], place: u32) -> Option<u8>
    ensures line { (x : Logged) (rest : List ℕ) → x.place ≡ place → caller_of x.event < 17 →
        bytes.now ≡ event_line x ++ rest → result ≡ Some (caller_of x.event) }
    ensures some { (n : ℕ) → n < 17 → BeginsWith (event_front place n) bytes.now →
        result ≡ Some n }
    ensures only { IfSome result (λ n. (n < 17) × BeginsWith (event_front place n) bytes.now) }
{
    let mut front = Line::new();
    front.put(b" ");
    front.put_decimal(place as u64);
    number_at_front(bytes.strip_prefix(front.bytes())?)
}

/// The number that a text begins with, where it is at most `most`. Where no digit comes first, it is 0.
fn number_up_to(text: &[u8], most: u32) -> Option<u32>
    requires { most ≤ 1048576 }
    ensures { result ≡ up_to most (leading 0 text.now) }
{
    let mut number = 0;
    for i in 0..text.len() {
        let Some(digit) = digit(text[i]) else {
            return Some(number);
        };
        number = number * 10 + digit as u32;
        if most < number {
            return None;
        }
    }
    Some(number)
}

/// How many events the first of these lines says that there are, where they are at most `most`.
pub fn count_in(bytes: &[u8], most: u32) -> Option<u32>
    requires { most ≤ 1048576 }
    ensures few { IfSome result (λ n. n ≤ most) }
    ensures count { (n : ℕ) (rest : List ℕ) → n ≤ most → bytes.now ≡ count_line n ++ rest →
        result ≡ Some n }
    ensures only { IfSome result (λ n. BeginsWith (count_line n) bytes.now) }
{
    let count = number_up_to(bytes.strip_prefix(b"events ")?, most)?;
    let mut line = Line::new();
    line.make_count(count);
    if bytes.starts_with(line.bytes()) {
        Some(count)
    } else {
        None
    }
}
