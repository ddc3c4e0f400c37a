//! What is handed on between layers is copied, where memory is there. That a copy is the same is a clause.

use crate::texts::key_text;
use std::alloc::Global;
use std::test::Fail;
use tab_edm::Entity;
use tab_history::TableNames;
use tab_keys::{Bound, KeyText, TableName};
use tab_ops::{Match, Op};
use tab_page::{Names, Options, Page, PageRows, Select};

fn keys(alloc: Global) -> Option<(KeyText, KeyText)> {
    let pk = key_text(alloc, "p")?;
    let rk = key_text(alloc, "r")?;
    Some((pk, rk))
}

fn one_selected(alloc: Global) -> Option<Select> {
    let name = String::from_str(alloc, "Name").ok()?;
    let names = vec![in alloc; name].ok()?;
    Some(Select::Names(Names::new(names)))
}

fn query(alloc: Global) -> Option<Options> {
    let select = one_selected(alloc)?;
    let start = keys(alloc)?;
    Some(Options {
        filter: None,
        select,
        top: 7,
        start: Some(start),
    })
}

#[test]
fn a_query_is_copied(rt: HostRuntime) -> Result<(), Fail> {
    let Some(query) = query(rt.alloc()) else {
        return Err(Fail::from("a query is made"));
    };
    assert!(rt; query.try_copy(rt.alloc()).is_ok());
    Ok(())
}

fn page(alloc: Global) -> Option<Page> {
    let next = keys(alloc)?;
    Some(Page {
        rows: PageRows::new(Vec::new(alloc)),
        next: Some(next),
        end: Bound::End,
    })
}

#[test]
fn a_page_is_copied(rt: HostRuntime) -> Result<(), Fail> {
    let Some(page) = page(rt.alloc()) else {
        return Err(Fail::from("a page is made"));
    };
    assert!(rt; page.try_copy(rt.alloc()).is_ok());
    Ok(())
}

/// An operation of each form.
fn operation(entity: Entity, form: u8) -> Op {
    match form {
        0 => Op::Insert(entity),
        1 => Op::Update(entity, Match::Any),
        2 => Op::Replace(entity),
        3 => Op::Merge(entity, Match::Tick(7)),
        4 => Op::MergeIn(entity),
        _ => Op::Delete(Match::Any),
    }
}

/// Whether an operation of this form is copied, with an entity of no properties.
fn is_copied(alloc: Global, form: u8) -> bool {
    match Entity::new(alloc, 1, 1, Vec::new(alloc)) {
        Ok(entity) => operation(entity, form).try_copy(alloc).is_ok(),
        Err(_) => false,
    }
}

#[test]
fn each_operation_is_copied(rt: HostRuntime) -> Result<(), Fail> {
    for form in 0..6_u8 {
        assert!(rt; is_copied(rt.alloc(), form), "{form}");
    }
    Ok(())
}

fn one_name(alloc: Global) -> Option<TableNames> {
    let name = TableName::new(alloc, "Goods").ok()?;
    let names = vec![in alloc; name].ok()?;
    Some(TableNames::new(names))
}

#[test]
fn names_of_tables_are_copied(rt: HostRuntime) -> Result<(), Fail> {
    let Some(names) = one_name(rt.alloc()) else {
        return Err(Fail::from("a list of one name"));
    };
    assert!(rt; names.try_copy(rt.alloc()).is_ok());
    Ok(())
}
