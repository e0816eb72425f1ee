//! The text of a number.
ghost use Rattle.std.specs.Prelude.{◌≡◌, ◌++◌, ◌<◌, decimal, IfOk, OnOk};
ghost use Rattle.workload.specs.WorkloadText.{next, choice, front, body_text, constant_text, text_of};

use crate::fault::MakeTextFault;
use itoa::Buffer;
use std::alloc::{AllocError, Global};

/// Puts bytes at the end.
fn put(out: &mut Vec<u8>, bytes: &[u8]) -> Result<(), AllocError>
    ensures ok { OnOk result (out.new.items ≡ out.old.items ++ bytes.now) }
{
    out.extend_from_slice(bytes)
}

/// The number after this one of the sequence.
fn next_number(x: u32) -> u32
    ensures is { result ≡ next x }
{
    ((1_103_515_245 * u64::from(x) + 12_345) % 2_147_483_648) as u32
}

/// What stands before the constants that are made.
fn put_front(out: &mut Vec<u8>) -> Result<(), AllocError>
    ensures ok { OnOk result (out.new.items ≡ out.old.items ++ front) }
{
    put(out, b"(env 1 (levels) (constraints)\n")?;
    put(
        out,
        b"(InductiveDecl bool (params) (family bool (sort Set) (indices) (ctor true (args) (result)) (ctor false (args) (result))))\n",
    )?;
    put(
        out,
        b"(ConstantDecl negb (tProd a (tInd bool 0) (tInd bool 0)) (tLambda a (tInd bool 0) (tCase (bool 0) (params) (pred (x) (tInd bool 0)) (tRel 0) (br () (tConstruct bool 0 1)) (br () (tConstruct bool 0 0)))))\n",
    )?;
    put(
        out,
        b"(ConstantDecl andb (tProd a (tInd bool 0) (tProd b (tInd bool 0) (tInd bool 0))) (tLambda a (tInd bool 0) (tLambda b (tInd bool 0) (tCase (bool 0) (params) (pred (x) (tInd bool 0)) (tRel 1) (br () (tRel 0)) (br () (tConstruct bool 0 1))))))\n",
    )?;
    put(
        out,
        b"(ConstantDecl xorb (tProd a (tInd bool 0) (tProd b (tInd bool 0) (tInd bool 0))) (tLambda a (tInd bool 0) (tLambda b (tInd bool 0) (tCase (bool 0) (params) (pred (x) (tInd bool 0)) (tRel 1) (br () (tApp (tConst negb) (tRel 0))) (br () (tRel 0))))))\n",
    )?;
    put(
        out,
        b"(ConstantDecl c0 (tInd bool 0) (tConstruct bool 0 0))\n",
    )
}

/// A number in decimal.
fn put_number(out: &mut Vec<u8>, number: u32) -> Result<(), AllocError>
    ensures ok { OnOk result (out.new.items ≡ out.old.items ++ decimal number) }
{
    let mut buffer = Buffer::new();
    put(out, buffer.format(number).as_bytes())
}

/// A number in decimal between two texts.
fn put_around(out: &mut Vec<u8>, front: &[u8], number: u32, end: &[u8]) -> Result<(), AllocError>
    ensures ok { OnOk result (out.new.items ≡ out.old.items ++ (front.now ++ (decimal number ++ end.now))) }
{
    put(out, front)?;
    put_number(out, number)?;
    put(out, end)
}

/// The body of a constant that names the one with a number.
fn put_body(out: &mut Vec<u8>, which: u32, before: u32) -> Result<(), AllocError>
    ensures ok { OnOk result (out.new.items ≡ out.old.items ++ body_text which before) }
{
    match which {
        0 => put_around(out, b"(tApp (tConst negb) (tConst c", before, b"))"),
        1 => put_around(
            out,
            b"(tApp (tConst andb) (tConstruct bool 0 0) (tConst c",
            before,
            b"))",
        ),
        _ => put_around(
            out,
            b"(tApp (tConst xorb) (tConst c",
            before,
            b") (tConstruct bool 0 0))",
        ),
    }
}

/// The constant after the one with a number.
fn put_constant(out: &mut Vec<u8>, which: u32, before: u32, number: u32) -> Result<(), AllocError>
    ensures ok { OnOk result (out.new.items ≡ out.old.items ++ constant_text which before number) }
{
    put(out, b"(ConstantDecl c")?;
    put_number(out, number)?;
    put(out, b" (tInd bool 0) ")?;
    put_body(out, which, before)?;
    put(out, b")\n")
}

/// The text of n, a number from 1 on. It declares n + 5 items.
pub fn make(alloc: Global, n: u32) -> Result<Vec<u8>, MakeTextFault>
    ensures is { IfOk result (λ v. v.items ≡ text_of n) }
{
    let mut out = Vec::new(alloc);
    put_front(&mut out)?;
    let mut x = n;
    for before in 0..n {
        x = next_number(x);
        put_constant(&mut out, x / 65_536 % 3, before, before + 1)?;
    }
    put(&mut out, b"(main (tConst c")?;
    put_number(&mut out, n)?;
    put(&mut out, b")))\n")?;
    Ok(out)
}
