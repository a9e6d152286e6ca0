// A line of a script of calls: words with a space between them, a command's name and behind it its numbers, and for some commands other words.
// Behind `rawrestore` stand lines of six decimals, and the lent lengths of `read` are five with commas.
#![tactic(auto)]

ghost use Rattle.std.specs.Prelude.{◌≡◌, ◌≤◌, ◌<◌, length};
ghost use Rattle.ascii.specs.Words.{SPACE, parted};
ghost use Rattle.replay_script.specs.Script.{highest_at, is_decimal_at, decimals_from, decimals_up_to, command_of, command_says, is_entry, are_lengths, lengths_for};
ghost use Rattle.replay_script.specs.Table.{NamedIn};

// The highest numbers of 32 and of 64 bits.
const U32: u64 = 0xFFFFFFFF;

const U64: u64 = 0xFFFFFFFFFFFFFFFF;

// ---- the commands

#[derive(Clone, Copy, Debug, PartialEq, Eq)]
pub enum Command {
    Script,
    Restore,
    RawRestore,
    Lend,
    Open,
    Cover,
    Contains,
    Covers,
    Take,
    Statement,
    Write,
    Veil,
    Read,
    State,
}

// A command, and how many decimals of 32 bits, decimals of 64 bits and other words stand behind its name.
type Form = (Command, usize, usize, usize);

// The commands by their names.
const NAMED: [(&[u8], Form); 14] = [
    (b"script", (Command::Script, 0, 1, 0)),
    (b"restore", (Command::Restore, 0, 1, 0)),
    (b"rawrestore", (Command::RawRestore, 0, 1, 1)),
    (b"lend", (Command::Lend, 0, 6, 0)),
    (b"open", (Command::Open, 0, 1, 0)),
    (b"cover", (Command::Cover, 2, 0, 0)),
    (b"contains", (Command::Contains, 1, 0, 0)),
    (b"covers", (Command::Covers, 2, 0, 0)),
    (b"take", (Command::Take, 0, 0, 0)),
    (b"statement", (Command::Statement, 0, 0, 0)),
    (b"write", (Command::Write, 0, 0, 0)),
    (b"veil", (Command::Veil, 2, 1, 1)),
    (b"read", (Command::Read, 2, 0, 2)),
    (b"state", (Command::State, 0, 0, 0)),
];

// The command with this name, in such a table.
fn named(rows: &[(&[u8], Form)], word: &[u8]) -> Option<Form>
    ensures { NamedIn (λ name. name.now) rows.now word.now result }
{
    rows.iter().find(|row| word == row.0).map(|row| row.1)
}

// ---- a line that is a command

fn is_decimal_at(text: &[u8], mark: u8, i: usize, highest: u64) -> bool
    ensures { result ≡ is_decimal_at highest i (parted mark text.now) }
{
    ascii::decimal(ascii::word(text, mark, i), highest).is_some()
}

fn highest(narrow: usize, i: usize) -> u64
    ensures { result ≡ highest_at narrow i }
{
    if i <= narrow { U32 } else { U64 }
}

fn are_decimals(line: &[u8], narrow: usize, count: usize) -> bool
    requires { count ≤ 510 }
    ensures { result ≡ decimals_from narrow 1 count (parted SPACE line.now) }
{
    for i in 1..count + 1 {
        if !is_decimal_at(line, b' ', i, highest(narrow, i)) {
            return false;
        }
    }
    true
}

impl Command {
    // The command that a line is.
    // Kept: the new form is no plainer: TryFrom would name an error where None says all.
    pub fn from_line(line: &[u8]) -> Option<Command>
        ensures { command_says result ≡ command_of line.now }
    {
        let (command, narrow, wide, others) = named(&NAMED, ascii::word(line, b' ', 0))?;
        let count = narrow + wide;
        if ascii::marks(line, b' ') != count + others {
            return None;
        }
        are_decimals(line, narrow, count).then_some(command)
    }
}

// ---- other lines and words

// Whether the words of a text are as many decimals as there are numbers here, each up to its number.
fn are_decimals_up_to(text: &[u8], mark: u8, highest: &[u64]) -> bool
    requires { 0 < length highest.now }
    ensures { result ≡ decimals_up_to highest.now (parted mark text.now) }
{
    if ascii::marks(text, mark) != highest.len() - 1 {
        return false;
    }
    for (i, number) in highest.iter().enumerate() {
        if !is_decimal_at(text, mark, i, *number) {
            return false;
        }
    }
    true
}

// Whether a line behind `rawrestore` is an entry: kind, id, msgno, version, start, length.
pub fn is_entry(line: &[u8]) -> bool
    ensures { result ≡ is_entry line.now }
{
    are_decimals_up_to(line, b' ', &[U32, U64, U32, U32, U64, U64])
}

// Whether a word is five lengths with commas: chains, skipped keys, pairs above, unacked numbers, expired pairs.
fn are_lengths(word: &[u8]) -> bool
    ensures { result ≡ are_lengths word.now }
{
    are_decimals_up_to(word, b',', &[U64; 5])
}

// Whether a word is the lent lengths of a `read` of this kind: of a contact five, of another row `-`.
pub fn lengths_for(kind: u64, word: &[u8]) -> bool
    ensures { result ≡ lengths_for kind word.now }
{
    if kind == u64::from(store::CONTACT) {
        return are_lengths(word);
    }
    kind <= u64::from(store::COURIER) && ascii::is_dash(word)
}
