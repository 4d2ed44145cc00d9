//! Runs of the program's commands.
use crate::program::run;
use crate::system::HealthSystem;
use std::alloc::Global;
use std::test::Fail;
use std::thread::Threads;

/// Returns the words of a run. The word `@` is replaced by this address.
fn words_of(alloc: Global, words: &[&str], address: &str) -> Result<Vec<String>, Fail> {
    let mut list = Vec::new(alloc);
    for word in words {
        let word = if *word == "@" { address } else { *word };
        list.push(String::from_str(alloc, word)?)?;
    }
    Ok(list)
}

/// Returns whether the program ends with this status and this output, and its reports of faults begin with these bytes.
pub fn is_so<R: HealthSystem + Threads + Send + 'static>(
    rt: &R,
    address: &str,
    words: &[&str],
    status: u8,
    written: &[u8],
    fault: &[u8],
) -> Result<bool, Fail> {
    let words = words_of(rt.alloc(), words, address)?;
    let (mut output, mut errors) = (Vec::new(rt.alloc()), Vec::new(rt.alloc()));
    let given = run(
        rt.clone()?,
        words.as_slice(),
        true,
        &mut output,
        &mut errors,
    );
    let is_fault = errors.starts_with(fault) && errors.is_empty() == fault.is_empty();
    Ok(given == status && output.as_slice() == written && is_fault)
}
