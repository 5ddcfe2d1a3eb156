mod samples;

use plant_maker::{make, maker_laws};
use plant_text::print_plant;
use samples::made;
use std::alloc::{AllocError, Global};
use std::test::Fail;

/// The text of the plant of the number.
fn printed(alloc: Global, number: u32) -> Result<Vec<u8>, AllocError> {
    let plant = make(alloc, number)?;
    print_plant(alloc, &plant)
}

#[test]
fn makes_the_plant_of_a_number(rt: HostRuntime) -> Result<(), Fail> {
    for (number, wanted) in made() {
        let printed = printed(rt.alloc(), *number)?;
        let text = printed.strip_suffix(b"\n").ok_or("a line")?;
        assert_eq!(rt; text, wanted.as_bytes(), "{number}");
    }
    maker_laws();
    Ok(())
}
