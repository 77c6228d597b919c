ghost use Rattle.std.specs.Prelude.{◌≡◌, ◌==◌, IsCharBoundary};
ghost use Rattle.std.specs.List.{list_all};
ghost use Rattle.al_values.specs.Characters.{begins_character, bytes_of, characters, first_characters, only_spaces_after};

/// How many characters a text has (manual, 9.4, `length`).
pub fn count_characters(text: &str) -> usize
    ensures { result ≡ characters text.now }
{
    text.as_bytes().iter().filter(|byte| begins(**byte)).count()
}

/// The first characters of a text, at most so many.
pub(crate) fn first(text: &str, most: u32) -> &str
    ensures { result.now ≡ first_characters most text.now }
{
    &text[..end_of(text.as_bytes(), most)]
}

/// Whether nothing but spaces stands after the first so many characters.
pub(crate) fn is_spaces_after(text: &str, most: u32) -> bool
    ensures { result ≡ only_spaces_after most text.now }
{
    let bytes = text.as_bytes();
    are_spaces(&bytes[end_of(bytes, most)..])
}

fn are_spaces(bytes: &[u8]) -> bool
    ensures { result ≡ list_all (λ byte. byte == 32) bytes.now }
{
    bytes.iter().all(|byte| *byte == b' ')
}

/// Where the first so many characters end.
#[tactic(auto, using(crate::proofs::Ends::bytes_of_at, crate::proofs::Ends::bytes_of_end))]
fn end_of(bytes: &[u8], most: u32) -> usize
    ensures value { result ≡ bytes_of most bytes.now }
    ensures boundary { IsCharBoundary bytes.now result }
{
    let mut left = most;
    for (place, byte) in bytes.iter().enumerate() {
        if begins(*byte) {
            if left == 0 {
                return place;
            }
            left -= 1;
        }
    }
    bytes.len()
}

fn begins(byte: u8) -> bool
    ensures { result ≡ begins_character byte }
{
    byte < 0x80 || byte >= 0xC0
}
