//! Sorted tables of words. A word is found by one binary search, and the contract is "the row that has this
//! word, or no row has it". So reading and printing share one table.

ghost use Rattle.std.specs.Prelude.{◌≡◌, true};
ghost use Rattle.mx_insn_words.specs.Named.{lookup, is_sorted};

/// A word and what it names, a row of a table.
pub struct Named<T> {
    pub word: &'static str,
    pub value: T,
}

/// What a word names in a table that is sorted by its words.
pub fn find_word<T: Copy>(table: &'static [Named<T>], word: &[u8]) -> Option<T>
    requires { is_sorted table.now ≡ true }
    ensures { result ≡ lookup table.now word.now }
{
    match table.binary_search_by(|row| row.word.as_bytes().cmp(word)) {
        Ok(at) => Some(table[at].value),
        Err(_) => None,
    }
}
