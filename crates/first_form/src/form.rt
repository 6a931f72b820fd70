//! Sources of the first form as data, and how they are read.
ghost use Rattle.std.specs.Prelude.{◌≡◌, ◌≢◌, ◌≤◌, ◌∷◌, ◌++◌, ◌*◌, [], ℕ, Bool, List, All, IfErr, IfOk, IfSome, IfNone, OnOk, codes, cond, false, true, decimal, length, map};
ghost use Rattle.std.specs.List.{flat_map};
ghost use Rattle.first_form.specs.Form.{Form as FirstForm, IsOfFirstForm, Says, declaration, head, last_statement, put_statement, spelling};
ghost use Rattle.first_form.specs.Refused.{Refuses, Unfits};

use crate::cursor::Cursor;
use c_tree::Pos;
use std::alloc::Global;
use word_ops::Items;

/// What a source of the first form says: the constants that it puts out in order, and the constant
/// that it returns.
#[derive(Debug, Drop)]
pub struct Form {
    pub puts: Items<u32>,
    pub status: u32,
}

/// Why a source is not read.
#[derive(Clone, Copy, Debug, PartialEq, Eq)]
pub enum FormFault {
    /// It is not of the first form; the place is that of the first lexeme that does not fit.
    NotYet(Pos),
    /// Memory is wanting.
    Memory,
}

/// Why reading stopped at a cursor.
#[derive(Clone, Copy)]
pub(crate) enum Stop {
    Unfit,
    Memory,
}

/// What a source of the first form says.
///
/// # Errors
///
/// `NotYet` exactly where the source is not of the first form. `Memory` where memory for the
/// constants is wanting. There are at most a fifth as many constants as bytes.
#[tactic(auto, using(crate::proofs::Forms::puts_few))]
pub fn read(alloc: Global, bytes: &[u8]) -> Result<Form, FormFault>
    ensures form { IfOk result (λ form. (declared : Bool) × IsOfFirstForm bytes.now (record { declared = declared; puts = form.puts; status = form.status })) }
    ensures few { IfOk result (λ form. 5 * length form.puts ≤ length bytes.now) }
    ensures refused { IfErr result (λ fault. Refuses fault bytes.now) }
{
    let mut cursor = Cursor::new(bytes);
    match read_unit(alloc, &mut cursor) {
        Ok(form) => Ok(form),
        Err(Stop::Unfit) => Err(FormFault::NotYet(cursor.place())),
        Err(Stop::Memory) => Err(FormFault::Memory),
    }
}

/// Takes these words one after the other.
fn expect(cursor: &mut Cursor<'_>, words: &[&[u8]]) -> Result<(), Stop>
    ensures taken { OnOk result (cursor.old ≡ map (λ w. w.now) words.now ++ cursor.new) }
    ensures unfit { IfErr result (λ stop. Unfits stop ((ts : List (List ℕ)) → cursor.old ≢ map (λ w. w.now) words.now ++ ts)) }
{
    for word in words {
        if !cursor.goes(word) {
            return Err(Stop::Unfit);
        }
    }
    Ok(())
}

/// Takes the head of `main`, with the declaration of `putchar` before it if it is there, and says
/// whether it is.
fn read_head(cursor: &mut Cursor<'_>) -> Result<bool, Stop>
    ensures taken { IfOk result (λ declared. cursor.old ≡ cond declared declaration [] ++ (head ++ cursor.new)) }
    ensures unfit { IfErr result (λ stop. Unfits stop ((declared : Bool) (ts : List (List ℕ)) → cursor.old ≢ cond declared declaration [] ++ (head ++ ts))) }
{
    expect(cursor, &[b"int"])?;
    let declared = cursor.goes(b"putchar");
    if declared {
        expect(cursor, &[b"(", b"int", b")", b";", b"int"])?;
    }
    expect(cursor, &[b"main", b"(", b"void", b")", b"{"])?;
    Ok(declared)
}

/// Takes a constant and the words behind it.
fn constant_then(cursor: &mut Cursor<'_>, words: &[&[u8]]) -> Result<u32, Stop>
    ensures small { IfOk result (λ k. k ≤ 2147483647) }
    ensures taken { IfOk result (λ k. cursor.old ≡ decimal k ∷ (map (λ w. w.now) words.now ++ cursor.new)) }
    ensures unfit { IfErr result (λ stop. Unfits stop ((k : ℕ) (ts : List (List ℕ)) → k ≤ 2147483647 → cursor.old ≢ decimal k ∷ (map (λ w. w.now) words.now ++ ts))) }
{
    let Some(value) = cursor.constant() else {
        return Err(Stop::Unfit);
    };
    expect(cursor, words)?;
    Ok(value)
}

/// Takes what follows the name in a statement `putchar(K);`, and gives the constant.
fn read_put(cursor: &mut Cursor<'_>) -> Result<u32, Stop>
    ensures small { IfOk result (λ k. k ≤ 2147483647) }
    ensures taken { IfOk result (λ k. codes "putchar" ∷ cursor.old ≡ put_statement k ++ cursor.new) }
    ensures unfit { IfErr result (λ stop. Unfits stop ((k : ℕ) (ts : List (List ℕ)) → k ≤ 2147483647 → codes "putchar" ∷ cursor.old ≢ put_statement k ++ ts)) }
{
    expect(cursor, &[b"("])?;
    constant_then(cursor, &[b")", b";"])
}

/// Takes all statements that put a constant out, and gives the constants.
fn read_puts(alloc: Global, cursor: &mut Cursor<'_>) -> Result<Vec<u32>, Stop>
    ensures small { IfOk result (λ puts. All (λ k. k ≤ 2147483647) puts.items) }
    ensures taken { IfOk result (λ puts. cursor.old ≡ flat_map put_statement puts.items ++ cursor.new) }
    ensures over { OnOk result ((ts : List (List ℕ)) → cursor.new ≢ codes "putchar" ∷ ts) }
    ensures unfit { IfErr result (λ stop. Unfits stop ((puts : List ℕ) (status : ℕ) → All (λ k. k ≤ 2147483647) puts → cursor.old ≢ flat_map put_statement puts ++ last_statement status)) }
{
    let mut puts = Vec::new(alloc);
    while cursor.goes(b"putchar") {
        let value = read_put(cursor)?;
        keep(&mut puts, value)?;
    }
    Ok(puts)
}

/// Takes all statements that put a constant out where `putchar` is declared, else none.
fn read_puts_if(alloc: Global, declared: bool, cursor: &mut Cursor<'_>) -> Result<Vec<u32>, Stop>
    ensures small { IfOk result (λ puts. All (λ k. k ≤ 2147483647) puts.items) }
    ensures called { IfOk result (λ puts. declared ≡ false → puts.items ≡ []) }
    ensures taken { IfOk result (λ puts. cursor.old ≡ flat_map put_statement puts.items ++ cursor.new) }
    ensures over { OnOk result (declared ≡ true → (ts : List (List ℕ)) → cursor.new ≢ codes "putchar" ∷ ts) }
    ensures unfit { IfErr result (λ stop. Unfits stop ((puts : List ℕ) (status : ℕ) → All (λ k. k ≤ 2147483647) puts → cursor.old ≢ flat_map put_statement puts ++ last_statement status)) }
{
    if declared {
        read_puts(alloc, cursor)
    } else {
        Ok(Vec::new(alloc))
    }
}

/// Adds a constant to those that were read.
fn keep(puts: &mut Vec<u32>, value: u32) -> Result<(), Stop>
    ensures ok { OnOk result (puts.new.items ≡ puts.old.items ++ value ∷ []) }
    ensures err { IfErr result (λ stop. stop ≡ Stop.Memory) }
{
    puts.push(value).map_err(out_of_memory)
}

/// Takes the last statement up to the end of the source, and gives its constant.
fn read_return(cursor: &mut Cursor<'_>) -> Result<u32, Stop>
    ensures small { IfOk result (λ k. k ≤ 2147483647) }
    ensures taken { IfOk result (λ k. cursor.old ≡ last_statement k) }
    ensures unfit { IfErr result (λ stop. Unfits stop ((k : ℕ) → k ≤ 2147483647 → cursor.old ≢ last_statement k)) }
{
    expect(cursor, &[b"return"])?;
    let status = constant_then(cursor, &[b";", b"}"])?;
    if cursor.is_done() {
        Ok(status)
    } else {
        Err(Stop::Unfit)
    }
}

/// Takes a whole source.
fn read_unit(alloc: Global, cursor: &mut Cursor<'_>) -> Result<Form, Stop>
    ensures form { IfOk result (λ form. (declared : Bool) × Says cursor.old (record { declared = declared; puts = form.puts; status = form.status })) }
    ensures unfit { IfErr result (λ stop. Unfits stop ((f : FirstForm) → Says cursor.old f → ⊥)) }
{
    let declared = read_head(cursor)?;
    let puts = read_puts_if(alloc, declared, cursor)?;
    let status = read_return(cursor)?;
    Ok(Form {
        puts: Items::from_vec(puts),
        status,
    })
}

fn out_of_memory<T: Drop>(_refused: T) -> Stop
    ensures { result ≡ Stop.Memory }
{
    Stop::Memory
}

/// A source of the first form says one thing.
pub fn says_one_thing()
    ensures { (bytes : List ℕ) (f g : FirstForm) → IsOfFirstForm bytes f → IsOfFirstForm bytes g → f ≡ g }
{}
