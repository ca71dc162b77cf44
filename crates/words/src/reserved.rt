// Reserved words told from names: a run as a number, by which a table knows it.
ghost use Rattle.std.specs.Prelude.{◌≡◌, ◌+◌, ◌*◌, ◌%◌, ◌≤◌, ◌<◌, length, map};
ghost use Rattle.paper.specs.Words.{capital};
ghost use Rattle.words.specs.Keys.{key_digit, key_of, keyword_keys, operand_keys, Numbered, forms, Excludes};
ghost use Rattle.words.specs.Denoted.{IsRunClass, IsNameClass};

use crate::{NAME, RESERVED};

// A byte as a digit of a run's key: A to Z in either case are 1 to 26, the underscore 27, any other 28.
fn key_digit(b: u8) -> u64
    ensures { result ≡ key_digit (capital b) }
{
    match b {
        b'a'..=b'z' => b as u64 - 96,
        b'A'..=b'Z' => b as u64 - 64,
        b'_' => 27,
        _ => 28,
    }
}

// The key of a run: its digits to the base 29, the first the lowest. No other run has a reserved word's key.
fn key_of(run: &[u8]) -> u64
    requires { length run.now ≤ 13 }
    ensures { result ≡ key_of (map capital run.now) }
{
    let mut key = 0;
    for &b in run.iter().rev() {
        key = key * 29 + key_digit(b);
    }
    key
}

// The number, in the list of reserved words, of a word of declarations and statements with this key.
fn keyword_number(key: u64) -> Option<u8>
    ensures { Numbered keyword_keys key result }
{
    let number = match key {
        7766129256 => 0, // PROGRAM
        5492835666975214 => 1, // END_PROGRAM
        10376987030152 => 2, // VAR_INPUT
        300936430693961 => 3, // VAR_OUTPUT
        15189 => 4, // VAR
        10743553387 => 5, // END_VAR
        17722075 => 6, // ARRAY
        189 => 7, // OF
        183 => 8, // IF
        345903 => 9, // THEN
        4479519 => 10, // ELSIF
        138277 => 11, // ELSE
        130094701 => 12, // END_IF
        137956 => 13, // CASE
        97574319914 => 14, // END_CASE
        15579 => 15, // FOR
        455 => 16, // TO
        727 => 17, // BY
        439 => 18, // DO
        11019392977 => 19, // END_FOR
        3836897 => 44, // WHILE
        2713765009335 => 45, // END_WHILE
        411065825 => 46, // REPEAT
        290739048434103 => 47, // END_REPEAT
        8724120 => 48, // UNTIL
        496050 => 49, // EXIT
        300416296 => 50, // RETURN
        _ => return None,
    };
    Some(number)
}

// The same of types, operators, truth values and conversions.
fn operand_number(key: u64) -> Option<u8>
    ensures { Numbered operand_keys key result }
{
    let number = match key {
        305720 => 20, // BOOL
        17235 => 21, // INT
        499836 => 22, // UINT
        499819 => 23, // DINT
        14494772 => 24, // UDINT
        17269 => 25, // NOT
        3812 => 26, // MOD
        3771 => 27, // AND
        15597 => 28, // XOR
        537 => 29, // OR
        140148 => 30, // TRUE
        4009923 => 31, // FALSE
        8622125557503584 => 32, // INT_TO_UINT
        8621832309606331 => 33, // INT_TO_DINT
        250033040509874808 => 34, // INT_TO_UDINT
        8622222026212396 => 35, // UINT_TO_INT
        250033136978583620 => 36, // UINT_TO_DINT
        7250958174786369453 => 37, // UINT_TO_UDINT
        8622222026212379 => 38, // DINT_TO_INT
        250041641167603940 => 39, // DINT_TO_UINT
        7250958174786369436 => 40, // DINT_TO_UDINT
        250044438760159012 => 41, // UDINT_TO_INT
        7251207593860514281 => 42, // UDINT_TO_UINT
        7250960972378924508 => 43, // UDINT_TO_DINT
        _ => return None,
    };
    Some(number)
}

// Whether some reserved word begins with this letter, in either case, and has this length. Most names are told from them so.
fn may_be_reserved(first: u8, n: usize) -> bool
    requires { n ≤ 13 }
    ensures { Excludes forms (n * 32 + first % 32) result }
{
    match n * 32 + (first % 32) as usize {
        97 | 161 => true, // AND, ARRAY
        66 | 130 => true, // BY, BOOL
        131 => true, // CASE
        68 | 132 | 356 | 388 | 420 => true, // DO, DINT, three conversions
        133 | 165 | 197 | 229 | 261 | 293 | 325 | 357 => true, // ELSE, EXIT, ELSIF, END_IF to END_PROGRAM
        102 | 166 => true, // FOR, FALSE
        73 | 105 | 361 | 393 => true, // IF, INT, three conversions
        109 => true, // MOD
        110 => true, // NOT
        79 => true, // OF, OR
        240 => true, // PROGRAM
        210 => true, // REPEAT, RETURN
        84 | 148 => true, // TO, THEN, TRUE
        149 | 181 | 373 | 405 | 437 => true, // UINT, UDINT, UNTIL, six conversions
        118 | 310 | 342 => true, // VAR, VAR_INPUT, VAR_OUTPUT
        183 => true, // WHILE
        120 => true, // XOR
        _ => false,
    }
}

// The class of a run that is a name or a reserved word. No reserved word has one byte or more than 13.
fn run_class(run: &[u8]) -> u8
    requires { 0 < length run.now }
    ensures { IsRunClass (map capital run.now) result }
{
    let n = run.len();
    if n < 2 || 13 < n || !may_be_reserved(run[0], n) {
        return NAME;
    }
    let key = key_of(run);
    if let Some(number) = keyword_number(key) {
        return RESERVED + number;
    }
    match operand_number(key) {
        Some(number) => RESERVED + number,
        None => NAME,
    }
}

// The same where reserved words are to be told from names, else NAME.
pub fn name_class(run: &[u8], told: bool) -> u8
    requires { 0 < length run.now }
    ensures { IsNameClass told (map capital run.now) result }
{
    if told { run_class(run) } else { NAME }
}
