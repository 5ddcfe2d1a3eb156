mod cases;
mod samples;

use super::altered::with;
use cases::{changed_texts, told_texts};
use plant_model::{Place, Plant};
use plant_text::{PlantTextFault, plant_text_laws, print_place, print_plant, read_plant};
use samples::sample_texts;
use std::alloc::{AllocError, Global};
use std::test::Fail;

// What the program tells of a place, behind a word.
fn told_at(alloc: Global, word: &str, place: &Place) -> Result<String, Fail> {
    let place = String::from_utf8(print_place(alloc, place)?)
        .ok()
        .ok_or("a place is words")?;
    Ok(format!(in alloc; "{word} {place}")?)
}

fn told_fault(alloc: Global, fault: PlantTextFault) -> Result<String, Fail> {
    match fault {
        PlantTextFault::Json => Ok(String::from_str(alloc, "json")?),
        PlantTextFault::Shape(place) => told_at(alloc, "shape", &place),
        PlantTextFault::Plant(fault) => {
            let number = fault.number.to_string(alloc)?;
            told_at(alloc, number.as_str(), &fault.place)
        }
        PlantTextFault::Memory => Err(AllocError.into()),
    }
}

// What the reader tells of a text.
fn told(alloc: Global, text: &[u8]) -> Result<String, Fail> {
    match read_plant(alloc, text) {
        Ok(_) => Ok(String::from_str(alloc, "plant")?),
        Err(fault) => told_fault(alloc, fault),
    }
}

fn plant(alloc: Global, text: &[u8]) -> Result<Plant, Fail> {
    match read_plant(alloc, text) {
        Ok(plant) => Ok(plant),
        Err(_) => Err("the text is a plant's".into()),
    }
}

// The text with blanks, a tab, a line feed and a carriage return around each of its marks. No name of the samples has
// a mark in it.
fn spread(alloc: Global, text: &str) -> Result<Vec<u8>, AllocError> {
    let mut out = Vec::new(alloc);
    for byte in text.bytes() {
        match byte {
            b'{' | b'}' | b'[' | b']' | b':' | b',' => {
                out.extend_from_slice(b" \t")?;
                out.push(byte)?;
                out.extend_from_slice(b"\r\n  ")?;
            }
            _ => out.push(byte)?,
        }
    }
    Ok(out)
}

#[test]
fn tells_the_first_place_or_fault(rt: HostRuntime) -> Result<(), Fail> {
    let alloc = rt.alloc();
    for (sample, old, new, wanted) in changed_texts() {
        let text = with(alloc, sample, old, new)?;
        let told = told(alloc, text.as_bytes())?;
        assert_eq!(rt; told.as_str(), *wanted, "{new}");
    }
    Ok(())
}

#[test]
fn tells_of_other_bytes_what_they_are(rt: HostRuntime) -> Result<(), Fail> {
    for (text, wanted) in told_texts() {
        let told = told(rt.alloc(), text)?;
        assert_eq!(rt; told.as_str(), *wanted);
    }
    Ok(())
}

#[test]
fn prints_the_one_text_of_a_plant(rt: HostRuntime) -> Result<(), Fail> {
    let alloc = rt.alloc();
    for (text, wanted) in sample_texts() {
        let line = format!(in alloc; "{wanted}\n")?;
        let spread = spread(alloc, text)?;
        let printed = print_plant(alloc, &plant(alloc, &spread)?)?;
        assert_eq!(rt; printed.as_slice(), line.as_bytes(), "{wanted}");
    }
    plant_text_laws();
    Ok(())
}
