//! The numbers by which a listing names kinds of records, operations, modes, effects and ends.

ghost use Rattle.std.specs.Prelude.{◌≡◌, ◌/◌, ◌%◌, ◌<◌, ◌≤◌, IsTrue};
ghost use Rattle.std.specs.Int.{is_in_range};
ghost use Rattle.image_form.specs.Codes.{op_code, load_code, kind_code, mode_code, term_code, store_code, end_code};
ghost use Rattle.image_form.specs.Contents.{kind_of, mode_of, end_of};
ghost use Rattle.image_form.specs.Rightness.{is_term_code};

use term_form::{EndKind, Mode, StoreWidth, TermKind};
use word_ops::{Op, Width};

/// The word that says that there is no number.
pub const NONE: u32 = u32::MAX;

// the kinds of records
pub const FUNCTION: u32 = 1;

pub const BLOCK: u32 = 2;

pub const TERM: u32 = 3;

pub const EFFECT: u32 = 4;

pub const ARGUMENT: u32 = 5;

pub const EDGE: u32 = 6;

pub const END: u32 = 7;

// the effects
pub const STORE_BYTE: u32 = 1;

pub const STORE_HALF: u32 = 2;

pub const STORE_WORD: u32 = 3;

pub const CALL: u32 = 4;

pub const GET: u32 = 5;

pub const PUT: u32 = 6;

pub const EXIT: u32 = 7;

// the modes of terms
const AFTER: u32 = 1;

const AT: u32 = 2;

const READY: u32 = 3;

// the ends of blocks
pub const JUMP: u32 = 1;

const BRANCH: u32 = 2;

const RETURN: u32 = 3;

pub const STOP: u32 = 4;

/// A mode stands above the 16 bits of an op code.
const MODE_STEP: u32 = 0x1_0000;

/// The operations in the order of their codes, from 1 on.
const OPERATIONS: [Op; 27] = [
    Op::Add,
    Op::Sub,
    Op::Mul,
    Op::Adds,
    Op::Subs,
    Op::Muls,
    Op::Divs,
    Op::Rems,
    Op::Divu,
    Op::Remu,
    Op::And,
    Op::Or,
    Op::Xor,
    Op::Shl,
    Op::Shls,
    Op::Shru,
    Op::Shrs,
    Op::Eq,
    Op::Ne,
    Op::Lts,
    Op::Les,
    Op::Ltu,
    Op::Leu,
    Op::Zext8,
    Op::Sext8,
    Op::Zext16,
    Op::Sext16,
];

fn op_number(op: Op) -> u32
    ensures value { result ≡ op_code op }
    ensures small { result < 100 }
{
    op as u32 + 1
}

fn load_number(width: Width) -> u32
    ensures value { result ≡ load_code width }
    ensures small { result < 115 }
{
    width as u32 + 110
}

fn kind_number(kind: TermKind) -> u32
    ensures value { result ≡ kind_code kind }
    ensures small { result < 115 }
{
    match kind {
        TermKind::Operate(op) => op_number(op),
        TermKind::Konst => 100,
        TermKind::Global => 101,
        TermKind::Local => 102,
        TermKind::Param => 103,
        TermKind::Phi => 104,
        TermKind::Got => 105,
        TermKind::Called => 106,
        TermKind::Load(width) => load_number(width),
    }
}

/// The kind of term of an op code.
fn kind_numbered(code: u32) -> TermKind
    requires { code < 100 → (0 < code) × (code ≤ 27) }
    ensures { result ≡ kind_of code }
{
    if code < 100 {
        return TermKind::Operate(OPERATIONS[code as usize - 1]);
    }
    match code {
        100 => TermKind::Konst,
        101 => TermKind::Global,
        102 => TermKind::Local,
        103 => TermKind::Param,
        104 => TermKind::Phi,
        105 => TermKind::Got,
        106 => TermKind::Called,
        110 => TermKind::Load(Width::U8),
        111 => TermKind::Load(Width::S8),
        112 => TermKind::Load(Width::U16),
        113 => TermKind::Load(Width::S16),
        _ => TermKind::Load(Width::Word),
    }
}

fn mode_number(mode: Mode) -> u32
    ensures value { result ≡ mode_code mode }
    ensures small { result < 4 }
{
    match mode {
        Mode::After => AFTER,
        Mode::At => AT,
        Mode::Ready => READY,
    }
}

fn mode_numbered(code: u32) -> Mode
    ensures { result ≡ mode_of code }
{
    match code {
        AFTER => Mode::After,
        AT => Mode::At,
        _ => Mode::Ready,
    }
}

/// The word of a kind of term with a mode.
pub fn term_word(kind: TermKind, mode: Mode) -> u32
    ensures { result ≡ term_code kind mode }
{
    kind_number(kind) + MODE_STEP * mode_number(mode)
}

/// The kind of term and the mode of a word.
pub fn term_parts(word: u32) -> (TermKind, Mode)
    requires { IsTrue (is_term_code word) }
    ensures kind { result.0 ≡ kind_of (word % 65536) }
    ensures mode { result.1 ≡ mode_of (word / 65536) }
{
    (
        kind_numbered(word % MODE_STEP),
        mode_numbered(word / MODE_STEP),
    )
}

/// Whether a number lies from one to another, both among them.
pub fn is_from(low: u32, high: u32, number: u32) -> bool
    ensures { result ≡ is_in_range low high number }
{
    low <= number && number <= high
}

/// Whether the word is one of a kind of term with a mode.
pub fn is_term_word(word: u32) -> bool
    ensures { result ≡ is_term_code word }
{
    let code = word % MODE_STEP;
    is_from(AFTER, READY, word / MODE_STEP)
        && (is_from(1, 27, code) || is_from(100, 106, code) || is_from(110, 114, code))
}

pub fn store_number(width: StoreWidth) -> u32
    ensures { result ≡ store_code width }
{
    match width {
        StoreWidth::Byte => STORE_BYTE,
        StoreWidth::Half => STORE_HALF,
        StoreWidth::Word => STORE_WORD,
    }
}

pub fn end_number(kind: EndKind) -> u32
    ensures { result ≡ end_code kind }
{
    match kind {
        EndKind::Jump => JUMP,
        EndKind::Branch => BRANCH,
        EndKind::Return => RETURN,
        EndKind::Stop => STOP,
    }
}

pub fn end_numbered(code: u32) -> EndKind
    ensures { result ≡ end_of code }
{
    match code {
        JUMP => EndKind::Jump,
        BRANCH => EndKind::Branch,
        RETURN => EndKind::Return,
        _ => EndKind::Stop,
    }
}
