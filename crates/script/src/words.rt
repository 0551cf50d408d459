ghost use Rattle.std.specs.Prelude.{◌≡◌, ◌≤◌, length};
ghost use Rattle.std.specs.Option.{option_copied};
ghost use Rattle.std.specs.Iterator.{at_most};
ghost use Rattle.std.specs.List.{position_or_len};
ghost use Rattle.std.specs.Str.{IsCharBoundary};
ghost use Rattle.script.specs.Words.{is_blank, from_word, before_comment, word_of, after_word};

// What parts the words of a line.
const BLANKS: [char; 3] = [' ', '\t', '\r'];

// The line up to its comment; nothing is looked for in an empty line or in a comment alone.
fn cut_comment(line: &str) -> &str
    ensures { result.now ≡ before_comment line.now }
{
    match line.as_bytes().first() {
        None | Some(b'#') => "",
        Some(_) => line.split_once('#').map_or(line, |(plain, _)| plain),
    }
}

// The text from its first word on.
fn skip_blanks(text: &str) -> &str
    ensures text { result.now ≡ from_word text.now }
    ensures bound { length result.now ≤ length text.now }
{
    text.trim_start_matches(BLANKS)
}

// How many bytes the word has that the text begins with.
fn word_len(text: &str) -> usize
    ensures len { result ≡ position_or_len is_blank text.now }
    ensures boundary { IsCharBoundary text.now result }
{
    text.find(BLANKS).unwrap_or(text.len())
}

// The words of a text, one after the other.
#[derive(Drop)]
pub struct Words<'a> {
    rest: &'a str,
}

// The words of a line up to its comment.
pub fn words_of(line: &str) -> Words<'_>
    ensures { result.rest.now ≡ before_comment line.now }
{
    Words {
        rest: cut_comment(line),
    }
}

// kept: with split and filter it stayed open in read_entry that the pieces kept are word_of, each past the one before
impl<'a> Iterator for Words<'a> {
    type Item = &'a str;

    ghost next_gives = { λ words word after. (option_copied word ≡ word_of words.rest.now) × (after.rest.now ≡ after_word words.rest.now) };

    ghost remaining = { λ words. at_most (length words.rest.now) };

    fn next(&mut self) -> Option<&'a str> {
        if self.rest.is_empty() {
            return None;
        }
        let text = skip_blanks(self.rest);
        let (word, rest) = text.split_at(word_len(text));
        self.rest = rest;
        (!word.is_empty()).then_some(word)
    }
}
