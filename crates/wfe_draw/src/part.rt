// Which lines of a record are drawn, as the words after the program's name say.
ghost use Rattle.std.specs.Prelude.{◌≡◌, [], IfSome};

use wfe_trace::number_of;

/// Lines of a record, from 1, with both ends.
#[derive(Clone, Copy)]
pub struct Part {
    pub first: u64,
    pub last: u64,
}

// All lines.
const WHOLE: Part = Part {
    first: 1,
    last: u64::MAX,
};

// The part with what one option says of it.
fn with_option(part: Part, name: &[u8], number: &[u8]) -> Option<Part> {
    let number = number_of(number)?;
    if name == b"--from".as_slice() {
        Some(Part {
            first: number,
            ..part
        })
    } else if name == b"--to".as_slice() {
        Some(Part {
            last: number,
            ..part
        })
    } else {
        None
    }
}

/// The part that the words ask for; none where they ask for something else.
pub fn part_of(words: &[String]) -> Option<Part>
    ensures { words.now ≡ [] → IfSome result (λ part. part.last ≡ 18446744073709551615) }
{
    match words {
        [] => Some(WHOLE),
        [name, number] => with_option(WHOLE, name.as_bytes(), number.as_bytes()),
        [name, number, other, last] => {
            let part = with_option(WHOLE, name.as_bytes(), number.as_bytes())?;
            with_option(part, other.as_bytes(), last.as_bytes())
        }
        _ => None,
    }
}
