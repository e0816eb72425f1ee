//! The layer of certificates: what `read_cert` gives, and what `print_cert` makes of it.
use crate::printing::sink;
use cert_rules::certificate::Cert;
use cert_text::{CertText, print_cert, read_cert};
use kio::MemSink;
use row_files::{Case, Fault, put_bytes};
use std::alloc::AllocError;

/// Runs a row of the layer.
pub fn run(case: &Case, out: &mut String) -> Result<(), Fault> {
    match case.row.given("call")? {
        "read certificate" => run_read(case, out),
        _ => Err(Fault::Faulty("no such call")),
    }
}

/// A refusal of a text.
fn put_refusal(out: &mut String, refusal: CertText) -> Result<(), AllocError> {
    match refusal {
        CertText::Syntax { offset } => write!(out, "syntax at {offset}"),
        CertText::Number { offset } => write!(out, "number at {offset}"),
        CertText::Memory => out.push_str("out of memory"),
    }
}

/// How many items were read, and what of them went out to a sink, with the fault if one came.
fn put_cert(out: &mut String, cert: &Cert, sink: &mut MemSink) -> Result<(), AllocError> {
    let count = cert.items().len();
    write!(out, "{count} items: ")?;
    if let Err(fault) = print_cert(cert, sink) {
        let written = fault.written;
        write!(out, "write fault after {written}: ")?;
    }
    put_bytes(out, sink.bytes())
}

/// Reads a certificate from the offset `from` on, and prints it to the sink of the row.
fn run_read(case: &Case, out: &mut String) -> Result<(), Fault> {
    let text = case.bytes("text")?;
    let given = case.row.number("from", 0)? as usize;
    let from = given.min(text.len());
    match read_cert(case.alloc, text.as_slice(), from) {
        Ok(cert) => {
            let mut sink = sink(case)?;
            Ok(put_cert(out, &cert, &mut sink)?)
        }
        Err(refusal) => Ok(put_refusal(out, refusal)?),
    }
}
