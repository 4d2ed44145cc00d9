//! The words that the program is called by.
use health_stub::HealthTable;
use std::alloc::Global;
use ttrpc_proto::Result;

/// The command that the words give.
#[derive(Drop)]
pub enum HealthCommand<'a> {
    /// Serves this table at an address until the program is killed.
    Serves(&'a str, HealthTable),
    /// Writes the last status of a name, as a server at an address gives it.
    Checks(&'a str, &'a str),
    /// Writes each status of a name, as a server at an address gives it.
    Watches(&'a str, &'a str),
    /// Writes both for a name, as the program's own server with this table gives them.
    Loops(&'a str, HealthTable),
    /// The words give no command.
    Wrong,
}

/// Reads the command that these words give. The only error is `NoMemory`.
pub fn read_words(alloc: Global, words: &[String]) -> Result<HealthCommand<'_>> {
    let [first, second, rest @ ..] = words else {
        return Ok(HealthCommand::Wrong);
    };
    let (first, second) = (first.as_str(), second.as_str());
    match (first, rest) {
        ("check", [name]) => Ok(HealthCommand::Checks(second, name.as_str())),
        ("watch", [name]) => Ok(HealthCommand::Watches(second, name.as_str())),
        ("serve", [_, ..]) => Ok(match read_table(alloc, rest)? {
            Some(table) => HealthCommand::Serves(second, table),
            None => HealthCommand::Wrong,
        }),
        ("loop", [_, ..]) => Ok(match read_table(alloc, rest)? {
            Some(table) => HealthCommand::Loops(second, table),
            None => HealthCommand::Wrong,
        }),
        _ => Ok(HealthCommand::Wrong),
    }
}

/// Reads the table of these words. Returns `None` if one of them isn't `NAME=STATUS[,STATUS..]`. The only error is
/// `NoMemory`.
fn read_table(alloc: Global, words: &[String]) -> Result<Option<HealthTable>> {
    let mut table = HealthTable::new(alloc);
    for word in words {
        let Some((name, list)) = word.as_str().split_once('=') else {
            return Ok(None);
        };
        match read_statuses(alloc, list)? {
            Some(statuses) => table.set(name, statuses.as_slice())?,
            None => return Ok(None),
        }
    }
    Ok(Some(table))
}

/// Reads statuses with commas between them. Returns `None` if one of them isn't an `i32`. The only error is `NoMemory`.
fn read_statuses(alloc: Global, list: &str) -> Result<Option<Vec<i32>>> {
    let mut statuses = Vec::new(alloc);
    for text in list.split(',') {
        match text.parse::<i32>() {
            Ok(status) => statuses.push(status)?,
            Err(_) => return Ok(None),
        }
    }
    Ok(Some(statuses))
}
