// Types whose cases have words.
ghost use Rattle.std.specs.Prelude.{◌≡◌, ℕ, find, List, Some};
ghost use Rattle.std.specs.Str.{bytes_eq};

// A type each of whose cases has a word. `TryFrom` and `Display` are the library's, and no impl of them is
// for every such type: each type has its own, of one line.
pub(crate) trait Choice: Copy + 'static {
    ghost all: { List Self };

    ghost bytes: { Self → List ℕ };

    fn all() -> &'static [Self]
        ensures { result.now ≡ all };

    fn word(self) -> &'static str
        ensures { result.now ≡ bytes self };

    // The word of a case spells it: every case is listed, and no two have one word.
    ghost spells_itself: { (c : Self) → find (λ d. bytes_eq (bytes d) (bytes c)) all ≡ Some c };
}

// The case that a word spells.
pub(crate) fn spelled<C: Choice>(word: &[u8]) -> Option<C>
    ensures { result ≡ find (λ c. bytes_eq (C.bytes c) word.now) C.all }
{
    C::all()
        .iter()
        .copied()
        .find(|case| case.word().as_bytes() == word)
}
