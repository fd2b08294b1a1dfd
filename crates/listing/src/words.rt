// Words, and the bytes that part them.
ghost use Rattle.std.specs.Prelude.{◌≡◌, [], ◌∷◌, MatchOption, not, length, position, take_while};
ghost use Rattle.listing.specs.Words.{parting, words};

#[tactic(auto, unfolding(crate::specs::Words::parting))]
fn parts(byte: u8) -> bool
    ensures { result ≡ parting byte }
{
    (byte == b' ') | (byte == b'\n')
}

// Where the first word begins.
fn word_start(text: &[u8]) -> Option<usize>
    ensures { result ≡ position (λ b. not (parting b)) text.now }
{
    text.iter().position(|byte| !parts(*byte))
}

// How long the word is that begins the text.
fn word_length(text: &[u8]) -> usize
    ensures { result ≡ length (take_while (λ b. not (parting b)) text.now) }
{
    text.iter().take_while(|byte| !parts(**byte)).count()
}

// Takes the next word off the front of the text, with the bytes that part it from what stands before it. There is none if only bytes
// that part words are left.
pub(crate) fn next_word<'a>(rest: &mut &'a [u8]) -> Option<&'a [u8]>
    ensures { MatchOption result (words rest.old.now ≡ []) (λ w. words rest.old.now ≡ w.now ∷ words rest.new.now) }
{
    let all: &'a [u8] = *rest;
    let from = &all[word_start(all)?..];
    let (word, behind) = from.split_at(word_length(from));
    *rest = behind;
    Some(word)
}
