// The words of a line.

ghost use Rattle.std.specs.Prelude.{◌≡◌, ◌<◌, ◌∷◌, ◌↔◌, [], IfNone, IfSome, IsTrue, drop, length, option_map};
ghost use Rattle.std.specs.List.{before_first, position, position_or_len};
ghost use Rattle.std.specs.Option.{option_copied};
ghost use Rattle.script_reader.specs.Instructions.{word_text, command_word, only_word, two_words};
ghost use Rattle.script_reader.specs.Lines.{after_word, is_blank, is_not_blank, text_after_word, trimmed_end, trimmed_start, words_of};

/// The words that begin commands.
#[derive(Clone, Copy, Debug, PartialEq, Eq)]
pub enum CommandWord {
    Descriptor,
    Load,
    Build,
    Refresh,
    Merge,
    Drop,
    Pause,
    Resume,
    Discard,
    Await,
    Jobs,
    Segments,
    Query,
}

/// The words that begin commands, each once.
const COMMAND_WORDS: [CommandWord; 13] = [
    CommandWord::Descriptor,
    CommandWord::Load,
    CommandWord::Build,
    CommandWord::Refresh,
    CommandWord::Merge,
    CommandWord::Drop,
    CommandWord::Pause,
    CommandWord::Resume,
    CommandWord::Discard,
    CommandWord::Await,
    CommandWord::Jobs,
    CommandWord::Segments,
    CommandWord::Query,
];

impl CommandWord {
    /// How the word is written.
    pub fn text(self) -> &'static [u8]
        ensures { result.now ≡ word_text self }
    {
        match self {
            CommandWord::Descriptor => b"descriptor",
            CommandWord::Load => b"load",
            CommandWord::Build => b"build",
            CommandWord::Refresh => b"refresh",
            CommandWord::Merge => b"merge",
            CommandWord::Drop => b"drop",
            CommandWord::Pause => b"pause",
            CommandWord::Resume => b"resume",
            CommandWord::Discard => b"discard",
            CommandWord::Await => b"await",
            CommandWord::Jobs => b"jobs",
            CommandWord::Segments => b"segments",
            CommandWord::Query => b"query",
        }
    }
}

/// The command that a word begins.
pub fn command_word(bytes: &[u8]) -> Option<CommandWord>
    ensures { result ≡ command_word bytes.now }
{
    COMMAND_WORDS
        .iter()
        .copied()
        .find(|word| word.text() == bytes)
}

// The place of the first space or tab.
fn first_blank(bytes: &[u8]) -> Option<usize>
    ensures place { result ≡ position is_blank bytes.now }
    ensures bound { IfSome result (λ at. at < length bytes.now) }
{
    bytes
        .iter()
        .position(|byte| *byte == b' ' || *byte == b'\t')
}

// The place of the first byte that is neither.
fn first_not_blank(bytes: &[u8]) -> Option<usize>
    ensures place { result ≡ position is_not_blank bytes.now }
    ensures bound { IfSome result (λ at. at < length bytes.now) }
{
    bytes
        .iter()
        .position(|byte| !(*byte == b' ' || *byte == b'\t'))
}

// Whether a byte is a space or a tab.
fn is_blank(byte: u8) -> bool
    ensures { result ≡ is_blank byte }
{
    byte == b' ' || byte == b'\t'
}

// Without the spaces and tabs in front.
fn trimmed_start(line: &[u8]) -> &[u8]
    ensures { result.now ≡ trimmed_start line.now }
{
    let at = first_not_blank(line).unwrap_or(line.len());
    let (_, rest) = line.split_at(at);
    rest
}

// Without the spaces and tabs at the end.
fn trimmed_end(line: &[u8]) -> &[u8]
    ensures { result.now ≡ trimmed_end line.now }
{
    let mut end = line.len();
    while end > 0 && is_blank(line[end - 1]) {
        end -= 1;
    }
    &line[..end]
}

// The bytes up to the first space or tab, and those from it on.
fn split_at_blank(bytes: &[u8]) -> (&[u8], &[u8])
    ensures front { result.0.now ≡ before_first is_blank bytes.now }
    ensures back { result.1.now ≡ drop (position_or_len is_blank bytes.now) bytes.now }
{
    let at = first_blank(bytes).unwrap_or(bytes.len());
    bytes.split_at(at)
}

/// The first word, and what stands after it.
pub fn next_word(line: &[u8]) -> Option<(&[u8], &[u8])>
    ensures none { IfNone result (words_of line.now ≡ []) }
    ensures some { IfSome result (λ cut. words_of line.now ≡ cut.0.now ∷ words_of cut.1.now) }
    ensures rest { IfSome result (λ cut. cut.1.now ≡ after_word line.now) }
{
    let line = trimmed_start(line);
    if line.is_empty() {
        None
    } else {
        Some(split_at_blank(line))
    }
}

/// What stands after the first word, without spaces and tabs at both ends.
pub fn text_after_word(line: &[u8]) -> &[u8]
    ensures { result.now ≡ text_after_word line.now }
{
    let (_, rest) = split_at_blank(trimmed_start(line));
    trimmed_end(trimmed_start(rest))
}

/// Whether there is no word.
pub fn has_no_word(line: &[u8]) -> bool
    ensures { IsTrue result ↔ (words_of line.now ≡ []) }
{
    next_word(line).is_none()
}

/// The only word; `None` where there are none or more.
pub fn only_word(line: &[u8]) -> Option<&[u8]>
    ensures { option_copied result ≡ only_word (words_of line.now) }
{
    match next_word(line) {
        Some((word, rest)) => match next_word(rest) {
            Some(_) => None,
            None => Some(word),
        },
        None => None,
    }
}

/// The two words; `None` where there are fewer or more.
pub fn two_words(line: &[u8]) -> Option<(&[u8], &[u8])>
    ensures { option_map (λ words. (words.0.now, words.1.now)) result ≡ two_words (words_of line.now) }
{
    match next_word(line) {
        Some((first, rest)) => match only_word(rest) {
            Some(second) => Some((first, second)),
            None => None,
        },
        None => None,
    }
}
