//! Table names: which texts are names, and when two are one. The rules are those of Microsoft's Table service REST
//! reference, "Understanding the Table service data model", "Table names".

ghost use Rattle.std.specs.Prelude.{◌≡◌, length, IfOk, MatchResult, None, bytes_eq, codes, ◌||◌};
ghost use Rattle.std.specs.Option.{unwrap_or};
ghost use Rattle.std.specs.List.{list_all};
ghost use Rattle.std.specs.Cmp.{partial_equiv_from_equiv, eq_by_cmp_equiv, partial_order_from_total};
ghost use Rattle.std.specs.Ordering.{eq_by_cmp, as_partial_cmp, is_eq};
ghost use Rattle.std.proofs.Common.{refl};
ghost use Rattle.tab_keys.specs.Order.{name_cmp};
ghost use Rattle.tab_keys.specs.TotalOrders.{name_cmp_total};
ghost use Rattle.tab_keys.specs.TableNames.{folded, fold_byte, is_letter, is_digit, is_well_formed, name_refusal, IsTableName};

use crate::Memory;
use std::alloc::Global;
use std::cmp::Ordering;
use std::marker::Model;

/// The fewest and the most letters and digits of a name.
const LEAST_LETTERS: usize = 3;

const MOST_LETTERS: usize = 63;

/// The name that no table may have, in lower case.
const RESERVED: &str = "tables";

/// Why a text is no table name.
#[derive(Clone, Copy, Debug, PartialEq, Eq)]
pub enum NameRefused {
    /// It is not 3 to 63 ASCII letters and digits that begin with a letter.
    BadName,
    /// It is `tables`, in any case.
    Reserved,
    /// No memory was found for the copy.
    Memory,
}

/// The name of a table. It keeps its spelling, and is compared without ASCII case.
#[derive(Debug, Drop)]
pub struct TableName {
    text: String,
}

impl Model for TableName {
    ghost use Rattle.std.specs.Prelude.{List, ℕ, string_bytes};
    ghost use Rattle.tab_keys.specs.TableNames.{IsTableName};

    ghost Value = { List ℕ };

    ghost view = { λ name. string_bytes name.text };

    ghost invariant = { λ name. IsTableName (string_bytes name.text) };
}

impl TableName {
    /// A copy of the text, if it is a table name.
    #[tactic(auto, unfolding(crate::specs::TableNames::name_refusal))]
    pub fn new(alloc: Global, text: &str) -> Result<TableName, NameRefused>
        ensures { MatchResult result
            (λ name. (name ≡ text.now) × (name_refusal text.now ≡ None))
            (λ why. unwrap_or (name_refusal text.now) NameRefused.Memory ≡ why) }
    {
        if !is_well_formed(text.as_bytes()) {
            return Err(NameRefused::BadName);
        }
        if is_reserved(text) {
            return Err(NameRefused::Reserved);
        }
        match String::from_str(alloc, text) {
            Ok(text) => Ok(TableName { text }),
            Err(_) => Err(NameRefused::Memory),
        }
    }

    /// The name as it was spelled.
    pub fn as_str(&self) -> &str
        ensures text { result.now ≡ self.now }
        ensures name { IsTableName self.now }
    {
        self.text.as_str()
    }

    /// A copy in memory of its own.
    pub fn try_copy(&self, alloc: Global) -> Result<TableName, Memory>
        ensures { IfOk result (λ copy. copy ≡ self.now) }
    {
        let text = String::from_str(alloc, self.text.as_str())?;
        Ok(TableName { text })
    }
}

impl PartialEq for TableName {
    ghost eq = { eq_by_cmp name_cmp };

    ghost laws = { partial_equiv_from_equiv (eq_by_cmp_equiv name_cmp_total) };

    fn eq(&self, other: &TableName) -> bool {
        is_same_folded(self.as_str(), other.as_str())
    }
}

impl Eq for TableName {
    ghost laws = { eq_by_cmp_equiv name_cmp_total };
}

impl PartialOrd for TableName {
    ghost partial_cmp = { as_partial_cmp name_cmp };

    ghost laws = { partial_order_from_total name_cmp_total };

    fn partial_cmp(&self, other: &TableName) -> Option<Ordering> {
        Some(self.cmp(other))
    }
}

impl Ord for TableName {
    ghost cmp = { name_cmp };

    ghost total = { name_cmp_total };

    ghost matches_partial_cmp = { λ a b. refl };

    ghost matches_eq = { λ a b. refl };

    fn cmp(&self, other: &TableName) -> Ordering {
        compare_folded(self.as_str(), other.as_str())
    }
}

#[tactic(auto, unfolding(crate::specs::TableNames::is_well_formed))]
fn is_well_formed(name: &[u8]) -> bool
    ensures { result ≡ is_well_formed name.now }
{
    if name.len() < LEAST_LETTERS || name.len() > MOST_LETTERS {
        return false;
    }
    is_letter(name[0]) && has_only_letters_and_digits(name)
}

fn has_only_letters_and_digits(name: &[u8]) -> bool
    ensures { result ≡ list_all (λ b. is_letter b || is_digit b) name.now }
{
    name.iter().all(|b| is_letter_or_digit(*b))
}

fn is_letter(b: u8) -> bool
    ensures { result ≡ is_letter b }
{
    b.is_ascii_alphabetic()
}

fn is_letter_or_digit(b: u8) -> bool
    ensures { result ≡ (is_letter b || is_digit b) }
{
    b.is_ascii_alphanumeric()
}

fn is_reserved(name: &str) -> bool
    ensures { result ≡ bytes_eq (folded name.now) (codes "tables") }
{
    name.eq_ignore_ascii_case(RESERVED)
}

fn is_same_folded(a: &str, b: &str) -> bool
    ensures { result ≡ is_eq (name_cmp a.now b.now) }
{
    a.eq_ignore_ascii_case(b)
}

fn compare_folded(a: &str, b: &str) -> Ordering
    ensures { result ≡ name_cmp a.now b.now }
{
    a.bytes().map(fold_byte).cmp(b.bytes().map(fold_byte))
}

fn fold_byte(b: u8) -> u8
    ensures { result ≡ fold_byte b }
{
    b.to_ascii_lowercase()
}
