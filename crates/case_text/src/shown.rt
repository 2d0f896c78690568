use desk_values::Memory;
use std::alloc::Global;

/// A stamp, or `-`.
pub fn stamp_text(alloc: Global, stamp: Option<u32>) -> Result<String, Memory> {
    match stamp {
        Some(stamp) => Ok(format!(in alloc; "{stamp}")?),
        None => Ok(String::from_str(alloc, "-")?),
    }
}

/// Numbers with a comma between, or `-`.
pub fn numbers_text(alloc: Global, numbers: &[u32]) -> Result<String, Memory> {
    let mut text = String::new(alloc);
    for number in numbers {
        if !text.is_empty() {
            text.push_str(",")?;
        }
        text.push_str(format!(in alloc; "{number}")?.as_str())?;
    }
    if text.is_empty() {
        text.push_str("-")?;
    }
    Ok(text)
}
