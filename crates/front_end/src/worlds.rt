//! From the texts of an update to its world.

ghost use Rattle.std.specs.Prelude.{◌≡◌, ◌≤◌, [], ◌∷◌, ℕ, List, Option, length, IfErr, IfOk, MatchResult};
ghost use Rattle.std.specs.Option.{option_copied};
ghost use Rattle.c_lang.specs.Limits.{height_limit, size_limit};
ghost use Rattle.c_lang.specs.declared.unit.Unit.TheVariants as unit;
ghost use Rattle.c_lang.specs.declared.refusal.Fail.TheVariants as Fail;
ghost use Rattle.c_lang.specs.declared.program.Program.{Program};
ghost use Rattle.c_grammar.specs.Parsed.{IsParsed, IsRefusedAs};
ghost use Rattle.c_grammar.specs.Written.{IsWritten};
ghost use Rattle.c_types.specs.Kept.{IsChecked, IsKept};
ghost use Rattle.front_end.specs.Conditions.{AllHold, Checks, IsRefusedBy};
ghost use Rattle.front_end.specs.Seen.{seen_client, seen_texts};
ghost use Rattle.front_end.specs.Worlds as spec;
ghost use Rattle.front_end.specs.Code.Stages.{AreClientTokens, AreOptionalTokens, AreTokens, IsClientSource, IsOptionalSource, AreSources, AreParsed, AreTyped, AreParts, IsOptionalChecked, IsOptionalWritten, source_program};
ghost use Rattle.update_points.specs.Points.{IsListed, all_points};
ghost use Rattle.update_semantics.specs.Worlds.{world_of};
ghost use Rattle.version_names.specs.Parts.{IsLinked};

use crate::texts::{ClientText, UpdateTexts};
use c_lang::{Fail, Name, Pos, Program, Refusal, Unit, height_limit, limit_of, refusal};
use c_lexer::{Token, lex};
use c_parser::parse;
use c_types::{Typed, check};
use client_specs::{Client, check_client};
use sqlite_items::Boxed;
use state_xform::{Xform, check_xform};
use std::alloc::Global;
use update_points::{Points, list_points};
use update_semantics::World;
use version_names::{Links, link};

/// The name of a client's function, and the tokens of the client.
#[derive(Drop)]
struct ClientTokens {
    spec: Name,
    tokens: Vec<Token>,
}

/// The tokens of the two versions, of the transformer, and of the client, where there is one.
#[derive(Drop)]
struct Tokens {
    old: Vec<Token>,
    new: Vec<Token>,
    xform: Vec<Token>,
    client: Option<ClientTokens>,
}

/// The name of a client's function, and the client's program, as it is written.
#[derive(Drop)]
struct ClientSource {
    spec: Name,
    program: Boxed<Program>,
}

/// The programs of the two versions, of the transformer, and of the client, where there is one, as they are
/// written.
#[derive(Drop)]
struct Programs {
    old: Boxed<Program>,
    new: Boxed<Program>,
    xform: Boxed<Program>,
    client: Option<ClientSource>,
}

/// The typed versions.
#[derive(Drop)]
struct Versions {
    old: Boxed<Typed>,
    new: Boxed<Typed>,
}

/// What an update takes beside the versions.
#[derive(Drop)]
struct Parts {
    points: Boxed<Points>,
    links: Boxed<Links>,
    xform: Xform,
    client: Option<Client>,
}

/// The world of the texts of an old and a new version, of a transformer, and of a client, where there is one,
/// in which the listed points may update, or all where there is no list.
///
/// Errors: the refusal of the first condition that the texts don't meet, and want of memory. The
/// conditions come in stages: the size of each text (27), its tokens (1, 2, 4, 6, 28), its grammar (3, 5),
/// each time old, new, transformer and client; then the types of the old and of the new version (7 to 15,
/// 21, 27); then the points (16, 17), then the transformer (7 to 15, 18, 19, 27), and then the client (7 to
/// 12, 14, 15, 20, 21, 22, 27).
pub fn accept(
    alloc: Global,
    texts: &UpdateTexts<'_>,
    listed: Option<&[u32]>,
) -> Result<Boxed<World>, Fail>
    ensures { MatchResult result
        (λ world. spec.IsAccepted (option_copied listed.entry) (seen_texts texts.now) (world_of world))
        (IsRefusedBy (spec.conditions (option_copied listed.entry) (seen_texts texts.now))) }
{
    if let Err(refusal) = check_sizes(texts) {
        return Err(Fail::Refused(refusal));
    }
    let tokens = lex_texts(alloc, texts)?;
    let programs = parse_texts(alloc, &tokens)?;
    let versions = check_versions(alloc, programs.old, programs.new)?;
    make_world(alloc, versions, programs.xform, programs.client, listed)
}

// ---- sizes

fn check_size(unit: Unit, text: &[u8]) -> Result<(), Refusal>
    ensures { Checks (spec.within_limit unit text.now ∷ []) result }
{
    if text.len() > limit_of(unit) {
        return Err(Refusal::at(refusal::PAST_LIMIT, Pos { unit, line: 1 }));
    }
    Ok(())
}

fn check_client_size(texts: &UpdateTexts<'_>) -> Result<(), Refusal>
    ensures { Checks (spec.of_client (λ c. spec.within_limit unit.Client c.text) (seen_texts texts.now).client) result }
{
    match &texts.client {
        Some(client) => check_size(Unit::Client, client.text),
        None => Ok(()),
    }
}

/// The texts of an update are within their limits, or the refusal (27) of the first one that isn't, in the
/// order old, new, transformer, client.
pub fn check_sizes(texts: &UpdateTexts<'_>) -> Result<(), Refusal>
    ensures { Checks (spec.size_conditions (seen_texts texts.now)) result }
{
    check_size(Unit::Old, texts.old)?;
    check_size(Unit::New, texts.new)?;
    check_size(Unit::Xform, texts.xform)?;
    check_client_size(texts)
}

// ---- tokens

fn client_tokens(alloc: Global, client: &ClientText<'_>) -> Result<ClientTokens, Fail>
    requires { length client.now.text.now ≤ size_limit unit.Client }
    ensures { MatchResult result (AreClientTokens (seen_client client.now))
        (IsRefusedBy (spec.has_tokens unit.Client (seen_client client.now).text ∷ [])) }
{
    let spec = Name::new(alloc, client.spec)?;
    let tokens = lex(alloc, Unit::Client, client.text)?;
    Ok(ClientTokens { spec, tokens })
}

fn lex_client(alloc: Global, texts: &UpdateTexts<'_>) -> Result<Option<ClientTokens>, Fail>
    requires { AllHold (spec.of_client (λ c. spec.within_limit unit.Client c.text) (seen_texts texts.now).client) }
    ensures { MatchResult result (AreOptionalTokens (seen_texts texts.now).client)
        (IsRefusedBy (spec.of_client (λ c. spec.has_tokens unit.Client c.text) (seen_texts texts.now).client)) }
{
    match &texts.client {
        Some(client) => Ok(Some(client_tokens(alloc, client)?)),
        None => Ok(None),
    }
}

fn lex_texts(alloc: Global, texts: &UpdateTexts<'_>) -> Result<Tokens, Fail>
    requires { AllHold (spec.size_conditions (seen_texts texts.now)) }
    ensures { MatchResult result (AreTokens (seen_texts texts.now))
        (IsRefusedBy (spec.token_conditions (seen_texts texts.now))) }
{
    let old = lex(alloc, Unit::Old, texts.old)?;
    let new = lex(alloc, Unit::New, texts.new)?;
    let xform = lex(alloc, Unit::Xform, texts.xform)?;
    let client = lex_client(alloc, texts)?;
    Ok(Tokens {
        old,
        new,
        xform,
        client,
    })
}

// ---- programs

// The program of a unit's tokens, within the unit's height.
fn program_of(alloc: Global, unit: Unit, tokens: &[Token]) -> Result<Boxed<Program>, Fail>
    ensures answer { MatchResult result (λ program. IsParsed unit (height_limit unit) tokens.now program)
        (λ fail. IsRefusedAs fail unit (height_limit unit) tokens.now) }
    ensures only { (program : Program) → IsParsed unit (height_limit unit) tokens.now program
        → MatchResult result (λ answer. answer ≡ program) (λ fail. fail ≡ Fail.NoMemory) }
{
    let program = parse(alloc, unit, height_limit(unit), tokens)?;
    Ok(Boxed::new(alloc, program)?)
}

fn client_source(alloc: Global, tokens: &ClientTokens) -> Result<ClientSource, Fail>
    ensures { (c : spec.ClientText) → AreClientTokens c tokens.now
        → MatchResult result (IsClientSource c) (IsRefusedBy (spec.is_program unit.Client c.text ∷ [])) }
{
    let spec = tokens.spec.copy(alloc)?;
    let program = program_of(alloc, Unit::Client, &tokens.tokens)?;
    Ok(ClientSource { spec, program })
}

fn parse_client(alloc: Global, tokens: &Option<ClientTokens>) -> Result<Option<ClientSource>, Fail>
    ensures { (client : Option spec.ClientText) → AreOptionalTokens client tokens.now
        → MatchResult result (IsOptionalSource client) (IsRefusedBy (spec.of_client (λ c. spec.is_program unit.Client c.text) client)) }
{
    match tokens {
        Some(tokens) => Ok(Some(client_source(alloc, tokens)?)),
        None => Ok(None),
    }
}

fn parse_texts(alloc: Global, tokens: &Tokens) -> Result<Programs, Fail>
    ensures { (ts : spec.Texts) → AreTokens ts tokens.now
        → MatchResult result (AreParsed ts) (IsRefusedBy (spec.grammar_conditions ts)) }
{
    let old = program_of(alloc, Unit::Old, &tokens.old)?;
    let new = program_of(alloc, Unit::New, &tokens.new)?;
    let xform = program_of(alloc, Unit::Xform, &tokens.xform)?;
    let client = parse_client(alloc, &tokens.client)?;
    Ok(Programs {
        old,
        new,
        xform,
        client,
    })
}

// ---- versions

fn check_versions(alloc: Global, old: Boxed<Program>, new: Boxed<Program>) -> Result<Versions, Fail>
    requires old { IsWritten unit.Old old }
    requires new { IsWritten unit.New new }
    ensures { (ts : spec.Texts) → AllHold (spec.size_conditions ts) → AreSources ts old new
        → MatchResult result (AreTyped ts) (IsRefusedBy (spec.type_conditions ts)) }
{
    let old = version_of(alloc, Unit::Old, old)?;
    let new = version_of(alloc, Unit::New, new)?;
    Ok(Versions { old, new })
}

fn version_of(alloc: Global, unit: Unit, program: Boxed<Program>) -> Result<Boxed<Typed>, Fail>
    requires { IsWritten unit program }
    ensures checked { IsChecked unit program result }
    ensures kept { IfOk result IsKept }
{
    let typed = check(alloc, unit, program.into_inner())?;
    Ok(Boxed::new(alloc, typed)?)
}

// ---- the update

fn program_in(client: &Option<ClientSource>) -> Option<&Program>
    ensures { option_copied result ≡ source_program client.now }
{
    match client {
        Some(client) => Some(client.program.get()),
        None => None,
    }
}

fn points_of(
    alloc: Global,
    old: &Typed,
    client: &Option<ClientSource>,
    listed: Option<&[u32]>,
) -> Result<Boxed<Points>, Fail>
    ensures { IsListed (all_points old.now.program (source_program client.now)) (option_copied listed.entry) result }
{
    let points = list_points(alloc, old.program(), program_in(client), listed)?;
    Ok(Boxed::new(alloc, points)?)
}

fn client_of(
    alloc: Global,
    versions: &Versions,
    links: &Links,
    client: Option<ClientSource>,
) -> Result<Option<Client>, Fail>
    requires linked { IsLinked versions.now.old.program versions.now.new.program links.now }
    requires written { IsOptionalWritten client }
    ensures { IsOptionalChecked versions.now.old.program versions.now.new.program client result }
{
    match client {
        Some(ClientSource { spec, program }) => {
            let (old, new) = (versions.old.get(), versions.new.get());
            let client = check_client(alloc, old, new, links, program.into_inner(), &spec)?;
            Ok(Some(client))
        }
        None => Ok(None),
    }
}

// The points, then the transformer, then the client.
fn check_update(
    alloc: Global,
    versions: &Versions,
    xform: Boxed<Program>,
    client: Option<ClientSource>,
    listed: Option<&[u32]>,
) -> Result<Parts, Fail>
    requires written { IsWritten unit.Xform xform }
    requires client { IsOptionalWritten client }
    ensures parts { IfOk result (AreParts (option_copied listed.entry) versions.now.old.program versions.now.new.program xform client) }
    ensures refused { (ts : spec.Texts) → AreTyped ts versions.now → spec.ParsesXform ts xform → IsOptionalSource ts.client client
        → IfErr result (IsRefusedBy (spec.update_conditions (option_copied listed.entry) ts)) }
{
    let (old, new) = (versions.old.get(), versions.new.get());
    let points = points_of(alloc, old, &client, listed)?;
    let links = Boxed::new(alloc, link(alloc, old, new)?)?;
    let xform = check_xform(alloc, old, new, links.get(), xform.into_inner())?;
    let client = client_of(alloc, versions, links.get(), client)?;
    Ok(Parts {
        points,
        links,
        xform,
        client,
    })
}

fn make_world(
    alloc: Global,
    versions: Versions,
    xform: Boxed<Program>,
    client: Option<ClientSource>,
    listed: Option<&[u32]>,
) -> Result<Boxed<World>, Fail>
    requires old { versions.old.unit ≡ unit.Old }
    requires old_kept { IsKept versions.old }
    requires new { versions.new.unit ≡ unit.New }
    requires new_kept { IsKept versions.new }
    requires written { IsWritten unit.Xform xform }
    requires client { IsOptionalWritten client }
    ensures { (ts : spec.Texts) → AreTyped ts versions → spec.ParsesXform ts xform → IsOptionalSource ts.client client
        → MatchResult result (λ world. spec.IsWorldOf (option_copied listed.entry) ts (world_of world))
        (IsRefusedBy (spec.update_conditions (option_copied listed.entry) ts)) }
{
    let Parts {
        points,
        links,
        xform,
        client,
    } = check_update(alloc, &versions, xform, client, listed)?;
    let Versions { old, new } = versions;
    let world = World::new(
        old.into_inner(),
        new.into_inner(),
        xform,
        client,
        links.into_inner(),
        points.into_inner(),
    );
    Ok(Boxed::new(alloc, world)?)
}
