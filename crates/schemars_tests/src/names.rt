use crate::expect::expect;
use schemars::Contract;
use schemars::types::TypeNo;
use schemars_build::names::Names;
use std::alloc::Global;
use std::test::Fail;

const READ: Contract = Contract::Deserialize;

const WRITTEN: Contract = Contract::Serialize;

// The row, the contract, the name to begin with and the name that is expected.
const NAMES: [(TypeNo, Contract, &str, &str); 10] = [
    (5, READ, "Config", "Config"),
    (0, READ, "Config", "Config2"),
    (9, READ, "Config", "Config3"),
    (0, READ, "Other", "Config2"),
    (0, WRITTEN, "Config", "Config4"),
    (0, READ, "Config", "Config2"),
    (1, READ, "Config2", "Config22"),
    (2, READ, "", ""),
    (3, READ, "", "2"),
    (3, WRITTEN, "", "3"),
];

// After all but the first name were taken back.
const NAMES_AGAIN: [(TypeNo, Contract, &str, &str); 3] = [
    (9, READ, "Config", "Config2"),
    (5, READ, "Config", "Config"),
    (0, READ, "Config", "Config3"),
];

// Whether the row has the name, which it is given now if it has none.
fn is_named(
    alloc: Global,
    names: &mut Names,
    n: TypeNo,
    contract: Contract,
    base: &str,
    name: &str,
) -> bool {
    let is_given = names.get(n, contract).is_some();
    let gives = is_given
        || match names.give(alloc, n, contract, base) {
            Ok(given) => given.as_str() == name,
            Err(_) => false,
        };
    gives && names.get(n, contract) == Some(name)
}

fn expect_each(
    alloc: Global,
    names: &mut Names,
    lines: &[(TypeNo, Contract, &'static str, &'static str)],
) -> Result<(), Fail> {
    for (n, contract, base, name) in lines {
        expect(is_named(alloc, names, *n, *contract, *base, *name), *name)?;
    }
    Ok(())
}

fn expect_names(alloc: Global, names: &mut Names) -> Result<(), Fail> {
    expect_each(alloc, names, &NAMES)?;
    let eight = names.len() == 8 && names.get(4, READ).is_none();
    expect(eight, "eight names")?;
    names.truncate(1);
    let one = names.len() == 1 && names.get(9, READ).is_none();
    expect(one, "one name")?;
    expect_each(alloc, names, &NAMES_AGAIN)
}

#[test]
fn names_are_numbered_and_taken_back(rt: HostRuntime) -> Result<(), Fail> {
    let mut names = Names::new(rt.alloc());
    expect_names(rt.alloc(), &mut names)
}
