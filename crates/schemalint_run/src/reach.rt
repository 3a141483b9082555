//! Rows that a row leads to.
use schemars_shapes::{Rows, rows};
use schemars_types::{TypeNo, Types};
use std::alloc::{AllocError, Global};

/// For each row whether `root` leads to it.
pub fn reached(alloc: Global, types: &Types, root: TypeNo) -> Result<Vec<bool>, AllocError> {
    let mut met = vec![in alloc; false; types.len()]?;
    let mut waiting = Vec::new(alloc);
    meet(&mut met, &mut waiting, root)?;
    // Each row waits at most once.
    for _ in 0..types.len() {
        let Some(n) = waiting.pop() else {
            break;
        };
        if let Some(entry) = types.entry(n) {
            for m in &rows(alloc, &entry.shape, Rows::All)? {
                meet(&mut met, &mut waiting, *m)?;
            }
        }
    }
    Ok(met)
}

fn meet(met: &mut [bool], waiting: &mut Vec<TypeNo>, n: TypeNo) -> Result<(), AllocError> {
    if let Some(place) = met.get_mut(n)
        && !*place
    {
        *place = true;
        waiting.push(n)?;
    }
    Ok(())
}
