//! The calls on two disks of names, and on the names that are open over them.

use crate::disks::Disks;
use crate::naming::Naming;
use crate::stops::{NO_MEMORY, Stop, UNKNOWN};
use crate::texts::{add, add_number, add_refused, add_words, area, number, split_word};
use std::alloc::Global;
use tab_keys::TableName;
use tab_master::{NamesRefused, NamesStep};

/// Two disks, or names that are open over them.
#[derive(Drop)]
enum Shelf {
    Closed(Disks),
    Open(Naming),
}

/// The most names that a list answers.
const MOST_LISTED: u16 = 1000;

/// Goes through the calls of a line, over two empty disks to begin with.
pub fn name(alloc: Global, calls: &str, pick: u64, came: &mut String) -> Result<(), Stop> {
    let mut shelf = Shelf::Closed(Disks::new(alloc));
    for call in calls.split('|') {
        shelf = step(alloc, shelf, call.trim_ascii(), pick, came)?;
    }
    Ok(())
}

fn step(
    alloc: Global,
    shelf: Shelf,
    call: &str,
    pick: u64,
    came: &mut String,
) -> Result<Shelf, Stop> {
    match shelf {
        Shelf::Closed(disks) => on_disks(alloc, disks, call, pick, came),
        Shelf::Open(naming) => on_names(alloc, naming, call, pick, came),
    }
}

/// `init NEXT` makes disks that hold no names and the number of the next table, `open` opens the names; else as for disks.
fn on_disks(
    alloc: Global,
    disks: Disks,
    call: &str,
    pick: u64,
    came: &mut String,
) -> Result<Shelf, Stop> {
    match split_word(call) {
        ("init", next) => made(alloc, disks, number(next)?, came),
        ("open", "") => open(alloc, disks, came),
        _ => called(alloc, disks, call, pick, came),
    }
}

fn called(
    alloc: Global,
    disks: Disks,
    call: &str,
    pick: u64,
    came: &mut String,
) -> Result<Shelf, Stop> {
    let mut disks = disks;
    disks.call(alloc, call, pick, came)?;
    Ok(Shelf::Closed(disks))
}

/// Area 0 under epoch 1 has the frame of no names, and the gate of area 1 stands closed.
fn made(alloc: Global, disks: Disks, next: u64, came: &mut String) -> Result<Shelf, Stop> {
    let mut disks = disks;
    let frame = format!(in alloc;
        "put 0 0154414253544f5245010100000000000000000101070000000c{next:016x}0000000000"
    )?;
    disks.call(alloc, frame.as_str(), 0, came)?;
    disks.call(alloc, "put 1 00", 0, came)?;
    Ok(Shelf::Closed(disks))
}

fn open(alloc: Global, disks: Disks, came: &mut String) -> Result<Shelf, Stop> {
    match Naming::open(alloc, disks) {
        Ok(naming) => {
            add(came, "opened")?;
            Ok(Shelf::Open(naming))
        }
        Err(back) => {
            add_refused(alloc, came, back.refused)?;
            Ok(Shelf::Closed(Disks {
                a: back.a,
                b: back.b,
            }))
        }
    }
}

fn on_names(
    alloc: Global,
    naming: Naming,
    call: &str,
    pick: u64,
    came: &mut String,
) -> Result<Shelf, Stop> {
    match split_word(call) {
        ("close", "") => Ok(Shelf::Closed(naming.closed())),
        ("restart", _) => called(alloc, naming.closed(), call, pick, came),
        (word, given) => {
            let mut naming = naming;
            call_names(alloc, &mut naming, word, given, came)?;
            Ok(Shelf::Open(naming))
        }
    }
}

/// `create NAME` and `drop NAME` make and drop a table, `resolve NAME` tells its number, `list` tells the first thousand names, `settle`
/// reads the store anew where it has failed, `checkpoint` rewrites it, and the others are those of `ask`.
fn call_names(
    alloc: Global,
    naming: &mut Naming,
    word: &str,
    given: &str,
    came: &mut String,
) -> Result<(), Stop> {
    match word {
        "create" => create(alloc, naming, given, came),
        "drop" => drop_one(alloc, naming, given, came),
        "settle" => settle(alloc, naming, came),
        "checkpoint" => checkpoint(alloc, naming, came),
        "fail" => arm(naming, given, false),
        "stop" => arm(naming, given, true),
        _ => ask(alloc, naming, word, given, came),
    }
}

/// `resolve NAME`, `list`, and `failed` and `doubt`, the step of which it is open whether it stands.
fn ask(
    alloc: Global,
    naming: &Naming,
    word: &str,
    given: &str,
    came: &mut String,
) -> Result<(), Stop> {
    match word {
        "resolve" => resolve(alloc, naming, given, came),
        "list" => list(alloc, naming, came),
        "failed" => add(came, if naming.failed() { "failed" } else { "running" }),
        "doubt" => add_doubt(alloc, came, naming.doubt()),
        _ => Err(UNKNOWN),
    }
}

fn table_name(alloc: Global, text: &str) -> Result<TableName, Stop> {
    match TableName::new(alloc, text) {
        Ok(name) => Ok(name),
        Err(_) => Err(Stop::Unread("a table's name is wanted")),
    }
}

fn create(alloc: Global, naming: &mut Naming, text: &str, came: &mut String) -> Result<(), Stop> {
    let name = table_name(alloc, text)?;
    match naming.create(alloc, &name) {
        Ok(table) => add_number(alloc, came, "table", table),
        Err(refused) => add_refusal(alloc, came, refused),
    }
}

fn drop_one(alloc: Global, naming: &mut Naming, text: &str, came: &mut String) -> Result<(), Stop> {
    let name = table_name(alloc, text)?;
    let result = naming.drop_table(alloc, &name);
    add_result(alloc, came, result)
}

fn settle(alloc: Global, naming: &mut Naming, came: &mut String) -> Result<(), Stop> {
    let result = naming.settle(alloc);
    add_result(alloc, came, result)
}

fn checkpoint(alloc: Global, naming: &mut Naming, came: &mut String) -> Result<(), Stop> {
    let result = naming.checkpoint(alloc);
    add_result(alloc, came, result)
}

fn arm(naming: &mut Naming, given: &str, stops: bool) -> Result<(), Stop> {
    let (of, call) = split_word(given);
    let area = area(of)?;
    let call = number(call)?;
    let is_armed = if stops {
        naming.arm_stop(area, call)
    } else {
        naming.arm_fail(area, call)
    };
    if is_armed { Ok(()) } else { Err(UNKNOWN) }
}

fn resolve(alloc: Global, naming: &Naming, text: &str, came: &mut String) -> Result<(), Stop> {
    let name = table_name(alloc, text)?;
    match naming.resolve(&name) {
        Some(table) => add_number(alloc, came, "table", table),
        None => add(came, "no table"),
    }
}

fn list(alloc: Global, naming: &Naming, came: &mut String) -> Result<(), Stop> {
    let (names, _) = naming.list(alloc, &None, MOST_LISTED)?;
    add_names(alloc, came, names.as_slice())
}

fn add_names(alloc: Global, came: &mut String, names: &[TableName]) -> Result<(), Stop> {
    let mut part = String::from_str(alloc, "names")?;
    for name in names {
        write!(part, " {}", name.as_str())?;
    }
    add(came, part.as_str())
}

fn add_doubt(alloc: Global, came: &mut String, doubt: Option<&NamesStep>) -> Result<(), Stop> {
    match doubt {
        Some(NamesStep::Create { name, .. }) => add_words(alloc, came, "doubt", name.as_str()),
        Some(NamesStep::Drop { table }) => add_number(alloc, came, "doubt of", *table),
        None => add(came, "no doubt"),
    }
}

fn add_result(alloc: Global, came: &mut String, res: Result<(), NamesRefused>) -> Result<(), Stop> {
    match res {
        Ok(()) => add(came, "done"),
        Err(refused) => add_refusal(alloc, came, refused),
    }
}

fn add_refusal(alloc: Global, came: &mut String, refused: NamesRefused) -> Result<(), Stop> {
    match refused {
        NamesRefused::AlreadyThere => add(came, "AlreadyThere"),
        NamesRefused::NotThere => add(came, "NotThere"),
        NamesRefused::IdsSpent => add(came, "IdsSpent"),
        NamesRefused::DiskFault { disk } => add_number(alloc, came, "DiskFault", disk),
        NamesRefused::Memory => Err(NO_MEMORY),
        NamesRefused::EpochSpent => add(came, "EpochSpent"),
        NamesRefused::Damaged { disk, .. } => add_number(alloc, came, "Damaged", disk),
    }
}
