//! Declarations and files.
ghost use Rattle.std.specs.Prelude.{◌≡◌, ◌<◌, false, position, Some, None, IfOk, IfErr, IfSome, OnOk, MatchOption, MatchResult};
ghost use Rattle.std.specs.Str.{bytes_eq};
ghost use Rattle.dps_signature.specs.Names.{IsDeclaredText};
ghost use Rattle.dps_scopes.specs.Scopes.{is_reserved};
ghost use Rattle.dps_syntax.specs.Tree.{count};
ghost use Rattle.dps_syntax.specs.Parts.{parts_of};
ghost use Rattle.dps_scopes.specs.Outcome.{Answers};
ghost use Rattle.dps_scopes.specs.Blocks.{blocks};
ghost use Rattle.dps_names.specs.Answers.{IsProgram, IsRefused};
ghost use Rattle.dps_names.specs.Program.{empty, no_side};
ghost use Rattle.dps_names.specs.Declarations.{declaring, declare_names, is_marked_private, names, functions, rule_in, rules, parameters, body_of, define_with, define, first_lexeme, first_place, side, query, declaration, declarations as declarations_say};
ghost use Rattle.dps_names.specs.DeclarationShapes.{one_name, one_function, one_parameter, AreParameters, AreNames, AreNoNames, IsFunction, IsNoFunction, IsDefinition, IsNoDefinition, HasBody, HasNoBody, IsQuery, IsNoQuery};

use crate::number::number_of;
use crate::process::{joined_in_parallel, parallels};
use crate::rule::read_rule;
use crate::shape::{begun, led};
use crate::{Program, Side, WrittenRule};
use dps_lex::{Place, TokenKind};
use dps_scopes::definitions::Definitions;
use dps_scopes::fault::{fault_at, place_of};
use dps_scopes::meaning::{Meaning, declared_meaning, is_reserved};
use dps_scopes::parts::is_kind;
use dps_scopes::scope::Scope;
use dps_scopes::signature::{SignatureBuilder, add_name, add_symbol};
use dps_scopes::term::MOST_ARGUMENTS;
use dps_scopes::texts::Texts;
use dps_scopes::{Body, NameCause, NameRefusal};
use dps_signature::SymKind;
use dps_syntax::{Decl, File, Leaf, Part};
use dps_terms::NoMemory;
use std::alloc::{AllocError, Global};
use std::marker::Model;

/// What the declarations so far say.
#[derive(Drop)]
struct Draft {
    signature: SignatureBuilder,
    rules: Vec<WrittenRule>,
    definitions: Definitions,
    left: Side,
    right: Side,
}

impl Model for Draft {
    ghost use Rattle.dps_names.specs.Program.{Program};
    ghost use Rattle.dps_names.specs.StoredProgram.{program_code};

    ghost Value = { Program };

    ghost coded = { program_code };

    ghost view = { λ a. record { signature = a.signature; rules = a.rules.items; definitions = a.definitions; left = a.left; right = a.right } };
}

impl Draft {
    /// Nothing is declared yet. It takes no memory.
    fn new(alloc: Global) -> Draft
        ensures { result ≡ empty }
    {
        Draft {
            signature: SignatureBuilder::new(alloc),
            rules: Vec::new(alloc),
            definitions: Definitions::new(alloc),
            left: no_side(),
            right: no_side(),
        }
    }

    /// All that was declared.
    fn into_program(self, alloc: Global) -> Result<Program, NoMemory>
        ensures { IfOk result (λ program. program ≡ self) }
    {
        let Draft {
            signature,
            rules,
            definitions,
            left,
            right,
        } = self;
        Ok(Program {
            signature: signature.into_signature(),
            rules,
            definitions: definitions.into_list(alloc)?,
            left,
            right,
        })
    }
}

/// A side of a text that has none.
fn no_side() -> Side
    ensures { result ≡ no_side }
{
    Side {
        body: Body::nil(),
        place: Place { line: 0, column: 0 },
    }
}

/// The program of a file: what its declarations say. Where they have a fault of names, the first one; and `Memory` only
/// where memory runs out.
#[tactic(auto, using(crate::proofs::Declaring::refused_by))]
pub fn resolve(alloc: Global, file: &File) -> Result<Program, NameRefusal>
    ensures { MatchResult result (IsProgram file.now.declarations.items) (IsRefused file.now.declarations.items) }
{
    let mut draft = Draft::new(alloc);
    match declare_all(alloc, file.declarations.as_slice(), &mut draft) {
        Ok(()) => finished(alloc, draft),
        Err(refusal) => {
            discard(draft);
            Err(refusal)
        }
    }
}

/// The program of a draft. It fails out of memory alone.
fn finished(alloc: Global, draft: Draft) -> Result<Program, NameRefusal>
    ensures ok { IfOk result (λ program. program ≡ draft) }
    ensures memory { IfErr result (λ refusal. refusal ≡ NameRefusal.Memory) }
{
    match draft.into_program(alloc) {
        Ok(program) => Ok(program),
        Err(_) => Err(NameRefusal::Memory),
    }
}

/// Drops a draft. (A function of its own, since whoever drops it holds the whole of its drop.)
fn discard(_draft: Draft) {}

/// The declarations in turn.
#[tactic(auto, using(crate::proofs::Declaring::for_files))]
fn declare_all(alloc: Global, declarations: &[Decl], draft: &mut Draft) -> Result<(), NameRefusal>
    ensures { Answers (λ _. tt) draft.new result (declarations_say declarations.now draft.old) }
{
    for declaration in declarations {
        declare(alloc, declaration, draft)?;
    }
    Ok(())
}

/// One declaration, or the query.
fn declare(alloc: Global, decl: &Decl, draft: &mut Draft) -> Result<(), NameRefusal>
    ensures { Answers (λ _. tt) draft.new result (declaration decl.now draft.old) }
{
    match decl {
        Decl::Free(tree) => declare_names(tree.parts.as_slice(), draft),
        Decl::Const(tree) => declare_names(tree.parts.as_slice(), draft),
        Decl::Fun(tree) => declare_functions(tree.parts.as_slice(), draft),
        Decl::Reduc(tree) => declare_rules(alloc, tree.parts.as_slice(), draft),
        Decl::Define(tree) => define(alloc, tree.parts.as_slice(), draft),
        Decl::Query(tree) => query(alloc, tree.parts.as_slice(), draft),
    }
}

/// The text may be declared: it is not reserved, and not declared already.
#[tactic(auto, using(crate::proofs::Declaring::for_new_names))]
fn check_new(leaf: &Leaf, draft: &Draft) -> Result<(), NameRefusal>
    ensures free { IfOk result (λ _. is_reserved leaf.now.text ≡ false) }
    ensures undeclared { IfOk result (λ _. ¬ IsDeclaredText draft.now.signature leaf.now.text) }
    ensures fresh { IfOk result (λ _. position (λ d. bytes_eq leaf.now.text d.name) draft.now.definitions ≡ None) }
    ensures found { Answers (λ _. tt) draft.now result (declaring leaf.now draft.now) }
{
    let text = leaf.text.as_str();
    if is_reserved(text) {
        return fault_at(NameCause::ReservedName, leaf);
    }
    match declared_meaning(&draft.definitions, &draft.signature, text) {
        Meaning::Unknown => Ok(()),
        _ => fault_at(NameCause::NameTwice, leaf),
    }
}

/// ("free" | "const") Ids [ "[" "private" "]" ] "."
fn declare_names(parts: &[Part], draft: &mut Draft) -> Result<(), NameRefusal>
    ensures { Answers (λ _. tt) draft.new result (names (parts_of parts.now) draft.old) }
{
    match names_in(parts) {
        Some((inside, behind)) => declare_each(inside, is_marked_private(behind), draft),
        None => Ok(()),
    }
}

/// The names of `free` or `const`, and what stands behind them.
#[tactic(auto, using(crate::proofs::DeclaringShapes::for_names))]
fn names_in(parts: &[Part]) -> Option<(&[Part], &[Part])>
    ensures { MatchOption result (AreNoNames (parts_of parts.now)) (λ f. AreNames (parts_of parts.now) (parts_of f.0.now) (parts_of f.1.now)) }
{
    let (_, rest) = begun(parts)?;
    let (names, rest) = led(rest)?;
    Some((names, rest))
}

/// Whether `private` stands behind the names.
#[tactic(auto, using(crate::proofs::Declaring::for_marks))]
fn is_marked_private(parts: &[Part]) -> bool
    ensures { result ≡ is_marked_private (parts_of parts.now) }
{
    for part in parts {
        if let Part::Token(leaf) = part {
            if is_kind(leaf, TokenKind::Private) {
                return true;
            }
        }
    }
    false
}

/// Ids = id { "," id }: public or private names.
#[tactic(auto, using(crate::proofs::Declaring::for_names))]
fn declare_each(parts: &[Part], private: bool, draft: &mut Draft) -> Result<(), NameRefusal>
    ensures { Answers (λ _. tt) draft.new result (declare_names private (parts_of parts.now) draft.old) }
{
    for part in parts {
        let Part::Token(leaf) = part else {
            continue;
        };
        if is_kind(leaf, TokenKind::Identifier) {
            declare_name(leaf, private, draft)?;
        }
    }
    Ok(())
}

/// A public or private name.
fn declare_name(leaf: &Leaf, private: bool, draft: &mut Draft) -> Result<(), NameRefusal>
    ensures { Answers (λ _. tt) draft.new result (one_name private leaf.now draft.old) }
{
    check_new(leaf, &*draft)?;
    add_name(&mut draft.signature, leaf.text.as_str(), private)
}

/// ("fun" | ",") id "/" number and so on, up to "."
#[tactic(auto, using(crate::proofs::Declaring::for_functions))]
fn declare_functions(parts: &[Part], draft: &mut Draft) -> Result<(), NameRefusal>
    ensures { Answers (λ _. tt) draft.new result (functions (parts_of parts.now) draft.old) }
{
    let mut rest = parts;
    while let Some((name, arity, behind)) = function_in(rest) {
        declare_function(name, arity, draft)?;
        rest = behind;
    }
    Ok(())
}

/// The function that stands first, its arity, and what stands behind them.
#[tactic(auto, using(crate::proofs::DeclaringShapes::for_functions))]
fn function_in(parts: &[Part]) -> Option<(&Leaf, &Leaf, &[Part])>
    ensures found { MatchOption result (IsNoFunction (parts_of parts.now)) (λ f. IsFunction (parts_of parts.now) f.0.now f.1.now (parts_of f.2.now)) }
    ensures smaller { IfSome result (λ f. count (parts_of f.2.now) < count (parts_of parts.now)) }
{
    let (_, rest) = begun(parts)?;
    let (name, rest) = begun(rest)?;
    let (_, rest) = begun(rest)?;
    let (arity, rest) = begun(rest)?;
    Some((name, arity, rest))
}

/// A constructor, with an arity of at most 8.
fn declare_function(name: &Leaf, arity: &Leaf, draft: &mut Draft) -> Result<(), NameRefusal>
    ensures { Answers (λ _. tt) draft.new result (one_function name.now arity.now draft.old) }
{
    check_new(name, &*draft)?;
    let number = number_of(arity);
    if MOST_ARGUMENTS < number as usize {
        return fault_at(NameCause::LargeArity, arity);
    }
    add_symbol(
        &mut draft.signature,
        name.text.as_str(),
        SymKind::Constructor,
        number,
    )?;
    Ok(())
}

/// The rules between the signs.
#[tactic(auto, using(crate::proofs::Declaring::for_rules))]
fn declare_rules(alloc: Global, parts: &[Part], draft: &mut Draft) -> Result<(), NameRefusal>
    ensures { Answers (λ _. tt) draft.new result (rules (parts_of parts.now) draft.old) }
{
    for part in parts {
        if let Part::Inner(tree) = part {
            declare_rule(alloc, tree.parts.as_slice(), draft)?;
        }
    }
    Ok(())
}

/// A rule. Parts of another shape say nothing.
fn declare_rule(alloc: Global, parts: &[Part], draft: &mut Draft) -> Result<(), NameRefusal>
    ensures { Answers (λ _. tt) draft.new result (rule_in draft.old (parts_of parts.now)) }
{
    let found = read_rule(alloc, &draft.definitions, parts, &mut draft.signature)?;
    if let Some(rule) = found {
        draft.rules.push(rule)?;
    }
    Ok(())
}

/// "let" id [ "(" Ids ")" ] "=" Par "."
fn define(alloc: Global, parts: &[Part], draft: &mut Draft) -> Result<(), NameRefusal>
    ensures { Answers (λ _. tt) draft.new result (define (parts_of parts.now) draft.old) }
{
    let Some((name, ids, inside)) = definition_in(parts) else {
        return Ok(());
    };
    check_new(name, &*draft)?;
    let parameters = parameters(alloc, ids)?;
    define_with(alloc, name, &parameters, inside, draft)
}

/// The name, the parameters and the body of a definition. Without brackets it has no parameters.
#[tactic(auto, using(crate::proofs::DeclaringShapes::for_definitions))]
fn definition_in(parts: &[Part]) -> Option<(&Leaf, &[Part], &[Part])>
    ensures { MatchOption result (IsNoDefinition (parts_of parts.now)) (λ f. IsDefinition (parts_of parts.now) f.0.now (parts_of f.1.now) (parts_of f.2.now)) }
{
    let (_, rest) = begun(parts)?;
    let (name, rest) = begun(rest)?;
    let (_, rest) = begun(rest)?;
    let (inside, rest) = led(rest)?;
    match body_behind(rest) {
        Some(body) => Some((name, inside, body)),
        None => Some((name, &[], inside)),
    }
}

/// The body behind the parameters of a definition: ")" "=" Par
#[tactic(auto, using(crate::proofs::DeclaringShapes::for_bodies))]
fn body_behind(parts: &[Part]) -> Option<&[Part]>
    ensures { MatchOption result (HasNoBody (parts_of parts.now)) (λ body. HasBody (parts_of parts.now) (parts_of body.now)) }
{
    let (_, rest) = begun(parts)?;
    let (_, rest) = begun(rest)?;
    let (body, _) = led(rest)?;
    Some(body)
}

/// The texts of parameters. None stands twice.
#[tactic(auto, using(crate::proofs::Declaring::for_parameters))]
fn parameters(alloc: Global, parts: &[Part]) -> Result<Texts, NameRefusal>
    ensures { AreParameters (parts_of parts.now) result }
{
    let mut texts = Texts::new(alloc);
    for part in parts {
        let Part::Token(leaf) = part else {
            continue;
        };
        if is_kind(leaf, TokenKind::Identifier) {
            add_parameter(alloc, leaf, &mut texts)?;
        }
    }
    Ok(texts)
}

/// A parameter, with a text that no other has.
fn add_parameter(alloc: Global, leaf: &Leaf, texts: &mut Texts) -> Result<(), NameRefusal>
    ensures { Answers (λ _. tt) texts.new result (one_parameter leaf.now texts.old) }
{
    let text = leaf.text.as_str();
    if texts.find(text).is_some() {
        return fault_at(NameCause::NameTwice, leaf);
    }
    texts.push(alloc, text)?;
    Ok(())
}

/// A process with these parameters.
fn define_with(
    alloc: Global,
    name: &Leaf,
    parameters: &Texts,
    parts: &[Part],
    draft: &mut Draft,
) -> Result<(), NameRefusal>
    requires { position (λ d. bytes_eq name.now.text d.name) draft.old.definitions ≡ None }
    ensures { Answers (λ _. tt) draft.new result (define_with name.now parameters.now (parts_of parts.now) draft.old) }
{
    let scope = Scope::Block(parameters, &Scope::Outermost);
    let body = body_of(alloc, parts, &scope, draft)?;
    let text = name.text.as_str();
    draft
        .definitions
        .push(alloc, text, parameters.count(), body)?;
    Ok(())
}

/// Par, as one process.
fn body_of(
    alloc: Global,
    parts: &[Part],
    scope: &Scope<'_>,
    draft: &mut Draft,
) -> Result<Body, NameRefusal>
    ensures same { draft.new.definitions ≡ draft.old.definitions }
    ensures found { Answers (λ p. p) draft.new result (body_of (parts_of parts.now) (blocks scope.now) draft.old) }
{
    let found = parallels(
        alloc,
        &draft.definitions,
        scope,
        parts,
        &mut draft.signature,
    )?;
    Ok(joined_in_parallel(found))
}

/// "query" "trace_equiv" "(" Par "," Par ")" "."
fn query(alloc: Global, parts: &[Part], draft: &mut Draft) -> Result<(), NameRefusal>
    ensures { Answers (λ _. tt) draft.new result (query (parts_of parts.now) draft.old) }
{
    let Some((left, right)) = sides_in(parts) else {
        return Ok(());
    };
    let left = side(alloc, left, draft)?;
    let right = side(alloc, right, draft)?;
    draft.left = left;
    draft.right = right;
    Ok(())
}

/// The two sides of a query.
#[tactic(auto, using(crate::proofs::DeclaringShapes::for_queries))]
fn sides_in(parts: &[Part]) -> Option<(&[Part], &[Part])>
    ensures { MatchOption result (IsNoQuery (parts_of parts.now)) (λ f. IsQuery (parts_of parts.now) (parts_of f.0.now) (parts_of f.1.now)) }
{
    let (_, rest) = begun(parts)?;
    let (_, rest) = begun(rest)?;
    let (_, rest) = begun(rest)?;
    let (left, rest) = led(rest)?;
    let (_, rest) = begun(rest)?;
    let (right, _) = led(rest)?;
    Some((left, right))
}

/// A side of the query, and where it begins.
fn side(alloc: Global, parts: &[Part], draft: &mut Draft) -> Result<Side, NameRefusal>
    ensures { Answers (λ s. s) draft.new result (side (parts_of parts.now) draft.old) }
{
    let body = body_of(alloc, parts, &Scope::Outermost, draft)?;
    Ok(Side {
        body,
        place: first_place(parts),
    })
}

/// Where the first token stands.
fn first_place(parts: &[Part]) -> Place
    ensures { result ≡ first_place (first_lexeme (parts_of parts.now)) }
{
    match first_leaf(parts) {
        Some(leaf) => place_of(leaf),
        None => Place { line: 0, column: 0 },
    }
}

/// The first token.
#[tactic(auto, using(crate::proofs::Declaring::for_leaves))]
fn first_leaf(parts: &[Part]) -> Option<&Leaf>
    ensures { MatchOption result (first_lexeme (parts_of parts.now) ≡ None) (λ leaf. first_lexeme (parts_of parts.now) ≡ Some leaf.now) }
{
    for part in parts {
        match part {
            Part::Token(leaf) => return Some(leaf),
            Part::Inner(tree) => {
                if let Some(leaf) = first_leaf(tree.parts.as_slice()) {
                    return Some(leaf);
                }
            }
        }
    }
    None
}
