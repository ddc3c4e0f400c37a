//! The one range of a store in memory, of all keys, and its pages.
ghost use Rattle.std.specs.Prelude.{◌≡◌, ◌<◌, [], IfOk};
ghost use Rattle.tab_keys.specs.declared.bounds.Bound.TheVariants.{End};
ghost use Rattle.tab_page.specs.Pages.{page_below};
ghost use Rattle.tab_drive.specs.Ranges.{all_keys};

use std::alloc::Global;
use std::marker::{Brand, Model};
use std::sync::ledger::{Blank, Ledger};
use tab_keys::{Bound, KeyText, Memory, Span};
use tab_page::{Options, Page, page};
use tab_rows::{Rows, Steps};

/// The span of all keys.
#[derive(Drop)]
pub struct AllKeys {
    span: Span,
}

impl Model for AllKeys {
    ghost use Rattle.std.specs.Prelude.{◌≡◌};
    ghost use Rattle.tab_keys.specs.Spans.{Interval};
    ghost use Rattle.tab_drive.specs.Ranges.{all_keys};

    ghost Value = { Interval };

    ghost view = { λ keys. keys.span };

    ghost invariant = { λ keys. keys.span ≡ all_keys };
}

impl AllKeys {
    /// The span from the bound before all keys to the end. It takes memory for an empty key.
    pub fn new(alloc: Global) -> Result<AllKeys, Memory> {
        let first = AllKeys::first_bound(alloc)?;
        Ok(AllKeys {
            span: Span::new(first, Bound::End).unwrap(),
        })
    }

    /// The bound before all keys.
    pub fn first_bound(alloc: Global) -> Result<Bound, Memory>
        ensures { IfOk result (λ bound. bound ≡ Bound.At 0 []) }
    {
        match KeyText::new(alloc, "") {
            Ok(key) => Ok(Bound::At(0, key)),
            Err(_) => Err(Memory),
        }
    }

    fn span(&self) -> &Span
        ensures { result.now ≡ all_keys }
    {
        &self.span
    }
}

/// The page of a table whose rows lie in one range of all keys.
pub fn whole_page(
    alloc: Global,
    rows: &Rows,
    table: u64,
    keys: &AllKeys,
    options: &Options,
) -> Result<Page, Memory>
    ensures { IfOk result (λ page. page ≡ page_below rows.now.rows table options.now End) }
{
    counted_page::<Brand>(alloc, rows, table, keys.span(), options, Blank::new(1))
}

fn counted_page<L: Ledger>(
    alloc: Global,
    rows: &Rows,
    table: u64,
    keys: &Span,
    options: &Options,
    blank: Blank,
) -> Result<Page, Memory>
    requires all { keys.now ≡ all_keys }
    requires name { blank.name ≡ L.name }
    requires parts { blank.parts ≡ L.parts }
    requires some { 0 < blank.parts }
    ensures { IfOk result (λ page. page ≡ page_below rows.now.rows table options.now End) }
{
    let mut steps = Steps::<L>::new(blank);
    page(alloc, rows, table, keys, options, &mut steps)
}
