//! Tables that map words of a script line, such as its verb, to their meanings.
ghost use Rattle.std.specs.Prelude.{◌≡◌, map};
ghost use Rattle.script_text.specs.LineWords.Meanings.{entry_of, found_in, meaning_in};

// Returns the meaning of a word in the first table entry that has the word.
fn found_in<T: Copy>(table: &[(&'static str, T)], word: &[u8]) -> Option<T>
    ensures { result ≡ found_in table.now word.now }
{
    table
        .iter()
        .find(|entry| entry.0.as_bytes() == word)
        .map(|entry| entry.1)
}

/// Returns the meaning of a word in a table, or `None` if the table has no entry for the word.
pub(crate) fn meaning_in<T: Copy>(table: &[(&'static str, T)], word: &[u8]) -> Option<T>
    ensures { result ≡ meaning_in (map entry_of table.now) word.now }
{
    found_in(table, word)
}
