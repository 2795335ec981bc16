//! A growth that was refused, told apart from an answer that is another than the one wanted.

use bx_terms::Fault;

/// What a call gave, or how it was refused. Out of memory is no answer, and is handed on.
pub fn answered<T>(answer: Result<T, Fault>) -> Result<Result<T, Fault>, Fault> {
    match answer {
        Ok(given) => Ok(Ok(given)),
        Err(Fault::Memory) => Err(Fault::Memory),
        Err(fault) => Ok(Err(fault)),
    }
}

/// The number of a refusal, or 0 where there is none; out of memory is handed on.
pub fn number_of<T: Drop>(answer: Result<T, Fault>) -> Result<u8, Fault> {
    match answer {
        Ok(_) => Ok(0),
        Err(fault) => fault.number().ok_or(fault),
    }
}

/// What an engine wrote, the line of its failure behind it; out of memory is handed on. What is no UTF-8 is no text.
pub fn told(written: Vec<u8>) -> Result<String, Fault> {
    let text = String::from_utf8(written)
        .ok()
        .ok_or(Fault::NotUtf8 { line: 0 })?;
    if text.as_str().ends_with("bxemu: memory\n") {
        return Err(Fault::Memory);
    }
    Ok(text)
}
