//! Arguments that are given as text, and read as data of their types.
ghost use Rattle.std.specs.Prelude.{◌≡◌, ◌≢◌, ◌+◌, ◌<◌, ◌≤◌, ◌^◌, ◌++◌, ℕ, List, [], IfOk, IfErr, IfSome, MatchOption, Some, None, length, drop, reverse, slice_get};
ghost use Rattle.sexp_reader.specs.Lex.{tokens_of};
ghost use Rattle.sexp_reader.specs.Stream.{text_of_kind};
ghost use Rattle.first_order.specs.declared.faults.ArgsFault.TheVariants.{Memory};
ghost use Rattle.first_order.specs.declared.given.Next.{Next as Waits};
ghost use Rattle.first_order.specs.declared.given.Next.TheVariants.{Item, Name};
ghost use Rattle.first_order.specs.declared.given.Turn.TheVariants.{First, Later};
ghost use Rattle.first_order.specs.declared.given.Unfit.TheVariants.{Memory as Lacking};
ghost use Rattle.first_order.specs.ArgumentTexts.{is_text, ctor_from, ctor_at, SpellsArguments};
ghost use Rattle.dump_grammar.specs.Judge.{texts};
ghost use Rattle.data_trees.specs.Preorder.{IsTree};
ghost use Rattle.first_order.specs.Awaited.{AwaitsOpen, AwaitsWord, AwaitsItem, AwaitsName, AwaitsClose, ArgumentsAre, alone, opened, taking, arguments_in, with_nodes, joined, argument_sets, AreTrees, AnswersReading, AnswersSpelled};
ghost use Rattle.first_order.specs.Awaited.{fault_behind as fault_from, call_arguments as reading_of_call, arguments_from};
ghost use Rattle.first_order.specs.Nexts.{awaited, nexts_in, nodes_in, unfit_fault, offset_in, reading_on, IsTaking, IsClosing, KeepsTrees, GetsToken, GetsSome, GivesReading, PassesFirst, PassesNext};

use crate::faults::ArgsFault;
use crate::shapes::{ShapeCtor, Shapes, Signature};
use crate::vectors::{put, take_last};
use data_trees::Data;
use dump_grammar::{Keyword, is_word};
use dump_reader::names::Names;
use pc_terms::term::MakeFault;
use sexp_reader::{Token, TokenFault, TokenKind, Tokens};
use std::alloc::Global;

/// Whether an item is the first between its brackets, where the bracket that closes can't stand, or a later one.
#[derive(Clone, Copy, Debug, PartialEq, Eq)]
pub enum Turn {
    First,
    Later,
}

/// What is to come within an argument: data at a type, by the type's place; the name behind a bracket; or the bracket that closes.
#[derive(Clone, Copy)]
pub(crate) enum Next {
    Item(Turn, u32),
    Name(u32),
    Close(Turn),
}

/// Why a token isn't taken: no text of the form goes on with it, or it doesn't stand at its type; or there is no memory.
#[derive(Clone, Copy)]
pub(crate) enum Unfit {
    Form,
    Place,
    Memory,
}

impl From<MakeFault> for Unfit {
    ghost use Rattle.std.specs.Prelude.{◌≡◌};
    ghost use Rattle.first_order.specs.declared.given.Unfit.TheVariants.{Memory};

    ghost from_gives = { λ _ u. u ≡ Memory };

    /// Only want of memory is met here: no term is made.
    fn from(_f: MakeFault) -> Unfit {
        Unfit::Memory
    }
}

/// The next token, or the tokenizer's refusal. Takes no memory.
fn next_token(tokens: &mut Tokens) -> Result<Option<Token>, ArgsFault>
    ensures gets { GetsToken result tokens.old tokens.new }
{
    match tokens.next() {
        Ok(token) => Ok(token),
        Err(TokenFault::Stray { offset }) => Err(ArgsFault::Syntax { offset }),
        Err(TokenFault::NameBytes { .. }) => Err(ArgsFault::NameBytes),
        Err(TokenFault::Nesting { .. }) => Err(ArgsFault::Nesting),
    }
}

/// The next token, where something is to come. Takes no memory.
fn some_token(tokens: &mut Tokens) -> Result<Token, ArgsFault>
    ensures gets { GetsSome result tokens.old tokens.new }
{
    match next_token(tokens)? {
        Some(token) => Ok(token),
        None => Err(ArgsFault::Syntax {
            offset: tokens.len(),
        }),
    }
}

/// Whether a constructor has a name. Takes no memory.
fn has_name(names: &Names, ctor: &ShapeCtor, name: &[u8]) -> bool
    ensures is { result ≡ is_text name.now (slice_get names.now ctor.now.name.0) }
{
    match names.text(ctor.name.0) {
        Some(text) => text.as_bytes() == name,
        None => false,
    }
}

/// The first constructor of a name: its number, and the constructor. Takes no memory.
fn constructor_of_name<'a>(
    ctors: &'a [ShapeCtor],
    names: &Names,
    name: &[u8],
) -> Option<(usize, &'a ShapeCtor)>
    ensures is { MatchOption result (ctor_from names.now name.now 0 ctors.now ≡ None) (λ k. ctor_from names.now name.now 0 ctors.now ≡ Some (k.0, k.1.now.args)) }
{
    for (i, ctor) in ctors.iter().enumerate() {
        if has_name(names, ctor, name) {
            return Some((i, ctor));
        }
    }
    None
}

/// The constructor of a name at a type, by the type's place. Takes no memory.
fn constructor_at_type<'a>(
    shapes: &'a Shapes,
    names: &Names,
    place: u32,
    name: &[u8],
) -> Option<(usize, &'a ShapeCtor)>
    ensures is { MatchOption result (ctor_at names.now shapes.now.types place name.now ≡ None) (λ k. ctor_at names.now shapes.now.types place name.now ≡ Some (k.0, k.1.now.args)) }
{
    let shape = shapes.types.as_slice().get(place as usize)?;
    constructor_of_name(shape.ctors.as_slice(), names, name)
}

/// Puts the items behind the first and the bracket that closes before what waits.
fn put_behind(waiting: &mut Vec<Next>, places: &[u32]) -> Result<(), Unfit>
    ensures ok { IfOk result (λ _. reverse waiting.new.items ≡ nexts_in Later places.now ++ reverse waiting.old.items) }
    ensures only_memory { IfErr result (λ e. e ≡ Lacking) }
{
    put(waiting, Next::Close(Turn::Later))?;
    let count = places.len();
    for k in 0..count {
        let place = places[count - 1 - k];
        put(waiting, Next::Item(Turn::Later, place))?;
    }
    Ok(())
}

/// Puts what is to come between two brackets before what waits.
fn put_inside(waiting: &mut Vec<Next>, places: &[u32]) -> Result<(), Unfit>
    ensures ok { IfOk result (λ _. reverse waiting.new.items ≡ nexts_in First places.now ++ reverse waiting.old.items) }
    ensures only_memory { IfErr result (λ e. e ≡ Lacking) }
{
    if places.is_empty() {
        put(waiting, Next::Close(Turn::First))?;
        return Ok(());
    }
    put_behind(waiting, &places[1..])?;
    put(waiting, Next::Item(Turn::First, places[0]))?;
    Ok(())
}

/// A node of data.
fn node_of(number: usize, arguments: usize) -> Result<(u32, u32), Unfit>
    ensures ok { IfOk result (λ d. d ≡ (number, arguments)) }
    ensures only_memory { IfErr result (λ e. e ≡ Lacking) }
{
    let (Ok(number), Ok(arguments)) = (u32::try_from(number), u32::try_from(arguments)) else {
        return Err(Unfit::Memory);
    };
    Ok((number, arguments))
}

/// What a name without a bracket does where data at a type is to come: it is a constructor of the type that has no arguments.
fn take_alone(
    names: &Names,
    shapes: &Shapes,
    place: u32,
    name: &[u8],
) -> Result<Option<(u32, u32)>, Unfit>
    ensures is { (ws : List Waits) → IsTaking shapes.now.types (alone (ctor_at names.now shapes.now.types place name.now)) result ws ws }
    ensures leaf { IfOk result (λ o. IfSome o (λ d. d.1 ≡ 0)) }
    ensures some { IfOk result (λ o. o ≢ None) }
{
    let Some((number, ctor)) = constructor_at_type(shapes, names, place, name) else {
        return Err(Unfit::Place);
    };
    if !ctor.args.is_empty() {
        return Err(Unfit::Place);
    }
    let node = node_of(number, 0)?;
    Ok(Some(node))
}

/// What a token does where data at a type is to come.
fn take_item(
    names: &Names,
    shapes: &Shapes,
    turn: Turn,
    place: u32,
    kind: TokenKind,
    text: &[u8],
    waiting: &mut Vec<Next>,
) -> Result<Option<(u32, u32)>, Unfit>
    ensures is { IsTaking shapes.now.types (taking names.now (AwaitsItem turn shapes.now.types place) (text_of_kind kind text.now)) result waiting.old.items waiting.new.items }
    ensures trees { IfOk result (λ o. KeepsTrees (Item turn place) o waiting.old.items waiting.new.items) }
{
    match kind {
        TokenKind::Open => {
            put(waiting, Next::Name(place))?;
            Ok(None)
        }
        TokenKind::Atom => take_alone(names, shapes, place, text),
        TokenKind::Close => match turn {
            Turn::First => Err(Unfit::Form),
            Turn::Later => Err(Unfit::Place),
        },
    }
}

/// What the name of a constructor of a type does behind a bracket.
fn take_constructor(
    names: &Names,
    shapes: &Shapes,
    place: u32,
    name: &[u8],
    waiting: &mut Vec<Next>,
) -> Result<Option<(u32, u32)>, Unfit>
    ensures is { IsTaking shapes.now.types (opened shapes.now.types (ctor_at names.now shapes.now.types place name.now)) result waiting.old.items waiting.new.items }
    ensures trees { IfOk result (λ o. KeepsTrees (Name place) o waiting.old.items waiting.new.items) }
{
    let Some((number, ctor)) = constructor_at_type(shapes, names, place, name) else {
        return Err(Unfit::Place);
    };
    let node = node_of(number, ctor.args.len())?;
    put_inside(waiting, ctor.args.as_slice())?;
    Ok(Some(node))
}

/// What a token does behind a bracket, where the name of a constructor of a type is to come.
fn take_name(
    names: &Names,
    shapes: &Shapes,
    place: u32,
    kind: TokenKind,
    text: &[u8],
    waiting: &mut Vec<Next>,
) -> Result<Option<(u32, u32)>, Unfit>
    ensures is { IsTaking shapes.now.types (taking names.now (AwaitsName shapes.now.types place) (text_of_kind kind text.now)) result waiting.old.items waiting.new.items }
    ensures trees { IfOk result (λ o. KeepsTrees (Name place) o waiting.old.items waiting.new.items) }
{
    match kind {
        TokenKind::Atom => take_constructor(names, shapes, place, text, waiting),
        TokenKind::Open | TokenKind::Close => Err(Unfit::Form),
    }
}

/// What a token does where the bracket that closes is to come. Takes no memory.
fn take_close(turn: Turn, kind: TokenKind) -> Result<(), Unfit>
    ensures is { (names : List (List ℕ)) (text : List ℕ) → IsClosing (taking names (AwaitsClose turn) (text_of_kind kind text)) result }
{
    match kind {
        TokenKind::Close => match turn {
            Turn::First => Err(Unfit::Form),
            Turn::Later => Ok(()),
        },
        TokenKind::Open => Err(Unfit::Place),
        TokenKind::Atom => Err(Unfit::Place),
    }
}

/// What a token does where something is to come within an argument.
fn take(
    names: &Names,
    shapes: &Shapes,
    next: Next,
    kind: TokenKind,
    text: &[u8],
    waiting: &mut Vec<Next>,
) -> Result<Option<(u32, u32)>, Unfit>
    ensures is { IsTaking shapes.now.types (taking names.now (awaited shapes.now.types next) (text_of_kind kind text.now)) result waiting.old.items waiting.new.items }
    ensures trees { IfOk result (λ o. KeepsTrees next o waiting.old.items waiting.new.items) }
{
    match next {
        Next::Item(turn, place) => take_item(names, shapes, turn, place, kind, text, waiting),
        Next::Name(place) => take_name(names, shapes, place, kind, text, waiting),
        Next::Close(turn) => match take_close(turn, kind) {
            Ok(()) => Ok(None),
            Err(unfit) => Err(unfit),
        },
    }
}

/// The refusal of a token that isn't taken, by its offset.
fn fault_at(unfit: Unfit, offset: usize) -> ArgsFault
    ensures is { result ≡ unfit_fault unfit offset }
{
    match unfit {
        Unfit::Form => ArgsFault::Syntax { offset },
        Unfit::Place => ArgsFault::Wrong { offset },
        Unfit::Memory => ArgsFault::Memory,
    }
}

/// The next token within an argument: the node that it is, if it is one.
fn take_next(
    tokens: &mut Tokens,
    names: &Names,
    shapes: &Shapes,
    next: Next,
    waiting: &mut Vec<Next>,
) -> Result<Option<(u32, u32)>, ArgsFault>
    ensures passes { PassesNext names.now shapes.now.types result tokens.old tokens.new next waiting.old.items waiting.new.items }
{
    let token = some_token(tokens)?;
    let text = tokens.text(token);
    match take(names, shapes, next, token.kind, text, waiting) {
        Ok(node) => Ok(node),
        Err(unfit) => Err(fault_at(unfit, token.start)),
    }
}

/// Puts a node, if there is one, behind the others, which are fewer than 2^32.
fn put_node(nodes: &mut Vec<(u32, u32)>, node: Option<(u32, u32)>) -> Result<(), ArgsFault>
    ensures ok { IfOk result (λ _. nodes.new.items ≡ nodes.old.items ++ nodes_in node) }
    ensures few { IfOk result (λ _. length nodes.old.items < 2 ^ 32 → length nodes.new.items < 2 ^ 32) }
    ensures only_memory { IfErr result (λ e. e ≡ Memory) }
{
    let Some(node) = node else {
        return Ok(());
    };
    if nodes.len() >= u32::MAX as usize {
        return Err(ArgsFault::Memory);
    }
    put(nodes, node)?;
    Ok(())
}

/// The data of one argument at the first of its types.
fn argument(
    alloc: Global,
    tokens: &mut Tokens,
    names: &Names,
    shapes: &Shapes,
    turn: Turn,
) -> Result<Data, ArgsFault>
    ensures passes { PassesFirst names.now result tokens.old tokens.new (AwaitsItem turn shapes.now.types 0) with_nodes }
    ensures tree { IfOk result (λ d. IsTree d) }
{
    let mut waiting = Vec::new(alloc);
    put(&mut waiting, Next::Item(turn, 0))?;
    let mut nodes = Vec::new(alloc);
    'next: while let Some(next) = take_last(&mut waiting) {
        let node = take_next(tokens, names, shapes, next, &mut waiting)?;
        put_node(&mut nodes, node)?;
    }
    Ok(Data::of(nodes))
}

/// The bracket that opens the text. Takes no memory.
fn open(tokens: &mut Tokens) -> Result<(), ArgsFault>
    ensures passes { (names : List (List ℕ)) → PassesFirst names result tokens.old tokens.new AwaitsOpen (λ _ r. r) }
{
    let token = some_token(tokens)?;
    if token.kind != TokenKind::Open {
        return Err(ArgsFault::Syntax {
            offset: token.start,
        });
    }
    Ok(())
}

/// The word behind it. Takes no memory.
fn word(tokens: &mut Tokens) -> Result<(), ArgsFault>
    ensures passes { (names : List (List ℕ)) → PassesFirst names result tokens.old tokens.new AwaitsWord (λ _ r. r) }
{
    let token = some_token(tokens)?;
    if token.kind == TokenKind::Atom && is_word(tokens.text(token), Keyword::Args) {
        return Ok(());
    }
    Err(ArgsFault::Syntax {
        offset: token.start,
    })
}

/// The bracket that closes the text. Takes no memory.
fn close(tokens: &mut Tokens, turn: Turn) -> Result<(), ArgsFault>
    ensures passes { (names : List (List ℕ)) → PassesFirst names result tokens.old tokens.new (AwaitsClose turn) (λ _ r. r) }
{
    let token = some_token(tokens)?;
    match take_close(turn, token.kind) {
        Ok(()) => Ok(()),
        Err(unfit) => Err(fault_at(unfit, token.start)),
    }
}

/// Nothing but blanks and comments is left. Takes no memory.
fn end(tokens: &mut Tokens) -> Result<(), ArgsFault>
    ensures ends { (names : List (List ℕ)) → GivesReading result (λ _. ArgumentsAre []) (reading_on names tokens.old []) }
{
    match next_token(tokens)? {
        Some(token) => Err(ArgsFault::Syntax {
            offset: token.start,
        }),
        None => Ok(()),
    }
}

/// The data of the arguments, each at the first type of its own set, and the bracket that closes behind them.
fn arguments(
    alloc: Global,
    tokens: &mut Tokens,
    names: &Names,
    sets: &[Shapes],
) -> Result<Vec<Data>, ArgsFault>
    ensures gives { GivesReading result (λ v. with_nodes (joined v.items) (reading_on names.now tokens.new [])) (reading_on names.now tokens.old (arguments_in First (argument_sets sets.now))) }
    ensures counted { IfOk result (λ v. length v.items ≡ length sets.now) }
    ensures trees { IfOk result (λ v. AreTrees v.items) }
{
    let mut read = Vec::new(alloc);
    let mut turn = Turn::First;
    for set in sets {
        let data = argument(alloc, tokens, names, set, turn)?;
        put(&mut read, data)?;
        turn = Turn::Later;
    }
    close(tokens, turn)?;
    Ok(read)
}

/// The arguments of a whole text. Offsets are bytes from its start.
fn call_arguments(
    alloc: Global,
    bytes: &[u8],
    names: &Names,
    sets: &[Shapes],
) -> Result<Vec<Data>, ArgsFault>
    ensures exact { AnswersReading (reading_of_call names.now (argument_sets sets.now) bytes.now) (length sets.now) result }
{
    let mut tokens = Tokens::new(bytes);
    open(&mut tokens)?;
    word(&mut tokens)?;
    let read = arguments(alloc, &mut tokens, names, sets)?;
    end(&mut tokens)?;
    Ok(read)
}

/// A refusal, with its offset from the start of the input.
fn fault_behind(from: usize, fault: ArgsFault) -> ArgsFault
    requires within { from + offset_in fault < 2 ^ 64 }
    ensures is { result ≡ fault_from from fault }
{
    match fault {
        ArgsFault::Syntax { offset } => ArgsFault::Syntax {
            offset: from + offset,
        },
        ArgsFault::Wrong { offset } => ArgsFault::Wrong {
            offset: from + offset,
        },
        ArgsFault::Nesting => ArgsFault::Nesting,
        ArgsFault::NameBytes => ArgsFault::NameBytes,
        ArgsFault::Memory => ArgsFault::Memory,
    }
}

/// The arguments from an offset on, as their reading.
fn arguments_behind(
    alloc: Global,
    bytes: &[u8],
    from: usize,
    sets: &[Shapes],
    names: &Names,
) -> Result<Vec<Data>, ArgsFault>
    requires within { from ≤ length bytes.now }
    ensures exact { AnswersReading (arguments_from names.now (argument_sets sets.now) bytes.now from) (length sets.now) result }
{
    match call_arguments(alloc, &bytes[from..], names, sets) {
        Ok(read) => Ok(read),
        Err(fault) => Err(fault_behind(from, fault)),
    }
}

/// The arguments that a text gives from the offset `from` on, at most its length: `(args d d)`, with data of each type of the signature, where d is a constructor's name alone, or in
/// brackets before its arguments. Offsets are bytes from the start of `bytes`.
///
/// The refusal is at the first token where one arises. At one token `NameBytes` (an atom of more than 255 bytes) and `Nesting` (a nesting of 1,001, counted from `from`) come first, then
/// `Syntax` by the form, then `Wrong`: at a name that isn't a constructor of the type that stands there, at an item that is one too many, at a name without a bracket whose constructor has
/// arguments, and at a closing bracket where an item is missing. `Memory` comes only where there is no memory, or an argument has 2^32 nodes.
pub fn read_args(
    alloc: Global,
    bytes: &[u8],
    from: usize,
    sig: &Signature,
    names: &Names,
) -> Result<Vec<Data>, ArgsFault>
    requires within { from ≤ length bytes.now }
    ensures exact { AnswersReading (arguments_from names.now (argument_sets sig.now.args) bytes.now from) (length sig.now.args) result }
    ensures spells { IfOk result (λ v. SpellsArguments names.now (argument_sets sig.now.args) (texts (tokens_of (drop from bytes.now))) v.items) }
    ensures complete { AnswersSpelled names.now (argument_sets sig.now.args) (tokens_of (drop from bytes.now)) result }
    ensures behind { IfErr result (λ f. offset_in f ≤ length bytes.now) }
{
    arguments_behind(alloc, bytes, from, sig.args.as_slice(), names)
}
