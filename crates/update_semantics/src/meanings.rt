//! What names stand for in the frames of a world's runs.

ghost use Rattle.std.specs.Prelude.{◌≡◌, IfOk};
ghost use Rattle.std.specs.Option.{option_copied};
ghost use Rattle.c_lang.specs.Names.{behind};
ghost use Rattle.c_lang.specs.Programs.{func_named};
ghost use Rattle.version_names.specs.Parts.{version_of};
ghost use Rattle.version_names.specs.Home.{Both, same_home};
ghost use Rattle.update_semantics.specs.Linked.{home_at, linked_at, function_at, provenance_of, home_in, declared_name, program_of, own_home, alone};
ghost use Rattle.plain_run.specs.Environments.{seen_definition};
ghost use Rattle.update_semantics.specs.UpdatingRun.{client_funcs, linked_by_prefix, cell_meaning, function_meaning, version_code, code_of};
ghost use Rattle.update_semantics.specs.Worlds.{IsWorld, program_of_client, world_of};

use crate::declared::Declared;
use crate::linked::{Function, Linked, Provenance};
use crate::world::World;
use c_lang::{Func, Name, Program};
use plain_run::Definition;
use std::alloc::{AllocError, Global};
use std::marker::Model;
use version_names::{Part, Sort2, Version};

/// A world with the declarations of its programs by name, which contracts see as the world.
pub struct Meanings<'p> {
    world: &'p World,
    first: Declared<'p>,
    second: Declared<'p>,
    xform: Declared<'p>,
    client: Option<Declared<'p>>,
}

impl Drop for Meanings<'_> {
    fn drop(self) {
        let Meanings {
            world: _,
            first,
            second,
            xform,
            client,
        } = self;
        drop(first);
        drop(second);
        drop(xform);
        drop(client);
    }
}

impl<'p> Model for Meanings<'p> {
    ghost use Rattle.std.specs.Prelude.{◌≡◌};
    ghost use Rattle.std.specs.Coded.{codes};
    ghost use Rattle.c_lang.specs.contracts.stmt.Stmt as stmt;
    ghost use Rattle.update_semantics.specs.Worlds.{World, program_of_client};

    ghost Value = { World };

    ghost coded = { Prim.hlevel (codes, stmt.the_row.coded) };

    ghost view = { λ m. m.world.now };

    ghost invariant = { λ m. (m.first ≡ m.world.now.old_prog.program) × (m.second ≡ m.world.now.new_prog.program) × (m.xform ≡ m.world.now.xform) × (m.client ≡ program_of_client m.world.now.client) };
}

// What follows the prefix in a name that begins with it.
fn behind<'a>(prefix: &[u8], name: &'a [u8]) -> Option<&'a [u8]>
    ensures { option_copied result ≡ behind prefix.now name.now }
{
    if name.starts_with(prefix) {
        Some(&name[prefix.len()..])
    } else {
        None
    }
}

fn is_shared(part: Option<Part>) -> bool
    ensures { result ≡ same_home (home_at part) Both }
{
    match part {
        Some(Part::Both) => true,
        Some(Part::Old) | Some(Part::New) | None => false,
    }
}

// Whether the version alone has what stands there.
fn is_own(version: Version, part: Option<Part>) -> bool
    ensures { result ≡ same_home (home_at part) (own_home version) }
{
    match version {
        Version::Old => match part {
            Some(Part::Old) => true,
            Some(Part::Both) | Some(Part::New) | None => false,
        },
        Version::New => match part {
            Some(Part::New) => true,
            Some(Part::Both) | Some(Part::Old) | None => false,
        },
    }
}

// A client's declarations, where there is one.
fn client_declared(alloc: Global, world: &World) -> Result<Option<Declared<'_>>, AllocError>
    ensures { IfOk result (λ declared. declared ≡ program_of_client world.entry.now.client) }
{
    match world.client() {
        Some(client) => Ok(Some(Declared::new(alloc, client.program())?)),
        None => Ok(None),
    }
}

impl<'p> Meanings<'p> {
    /// The tables of a world. The only error is want of memory.
    pub fn new(alloc: Global, world: &'p World) -> Result<Meanings<'p>, AllocError>
        ensures tables { IfOk result (λ meanings. meanings ≡ world.entry.now) }
        ensures made { IsWorld world.entry.now }
    {
        let first = Declared::new(alloc, world.old_prog().program())?;
        let second = Declared::new(alloc, world.new_prog().program())?;
        let xform = Declared::new(alloc, world.xform().program())?;
        let client = client_declared(alloc, world)?;
        Ok(Meanings {
            world,
            first,
            second,
            xform,
            client,
        })
    }

    /// The world. It takes no memory.
    pub fn world(&self) -> &'p World
        ensures { result.now ≡ self.now }
    {
        self.world
    }

    /// The program of a version. It takes no memory.
    pub fn program(&self, version: Version) -> &'p Program
        ensures { result.now ≡ program_of self.now version }
    {
        match version {
            Version::Old => self.first.program(),
            Version::New => self.second.program(),
        }
    }

    /// The part in which a version's name stands; none where the version lacks it. It takes no memory.
    pub fn part(&self, version: Version, sort: Sort2, name: &Name) -> Option<Part>
        ensures { home_at result ≡ home_in (world_of self.now) sort (version_of version) name.now }
    {
        let world = self.world;
        world.links().of(version, sort, name)
    }

    // The name as a version declares it, given its bytes.
    fn declared(&self, version: Version, sort: Sort2, name: &[u8]) -> Option<&'p Name>
        ensures { option_copied result ≡ declared_name (program_of self.now version) sort name.now }
    {
        match version {
            Version::Old => self.first.name(sort, name),
            Version::New => self.second.name(sort, name),
        }
    }

    // The same as `part` for a name of which only the bytes are given.
    fn part_of_bytes(&self, version: Version, sort: Sort2, name: &[u8]) -> Option<Part>
        ensures { home_at result ≡ home_in (world_of self.now) sort (version_of version) name.now }
    {
        match self.declared(version, sort, name) {
            Some(name) => self.part(version, sort, name),
            None => None,
        }
    }

    // The name behind a version's prefix, where that version alone has it.
    fn alone<'a>(
        &self,
        version: Version,
        sort: Sort2,
        behind: &'a [u8],
        name: &'a [u8],
    ) -> Linked<'a>
        ensures { linked_at result ≡ alone (home_in (world_of self.now) sort) version behind.entry.now name.entry.now }
    {
        let part = self.part_of_bytes(version, sort, behind);
        if is_own(version, part) {
            Linked { part, name: behind }
        } else {
            Linked { part: None, name }
        }
    }

    // What a name stands for in the transformer or in the client, if it is none of its own.
    fn linked_by_prefix<'a>(&self, sort: Sort2, name: &'a Name) -> Linked<'a>
        ensures { linked_at result ≡ linked_by_prefix (home_in (world_of self.now) sort) name.entry.now }
    {
        let part = self.part(Version::Old, sort, name);
        let name = name.as_bytes();
        if is_shared(part) {
            return Linked { part, name };
        }
        if let Some(behind) = behind(b"dsu_old_", name) {
            return self.alone(Version::Old, sort, behind, name);
        }
        match behind(b"dsu_new_", name) {
            Some(behind) => self.alone(Version::New, sort, behind, name),
            None => Linked { part: None, name },
        }
    }

    // A name of a version.
    fn linked<'a>(&self, version: Version, sort: Sort2, name: &'a Name) -> Linked<'a>
        ensures { linked_at result ≡ (home_in (world_of self.now) sort (version_of version) name.entry.now, name.entry.now) }
    {
        Linked {
            part: self.part(version, sort, name),
            name: name.as_bytes(),
        }
    }

    /// A function of the client's own; none where there is no client. It takes no memory.
    pub fn client_func(&self, name: &[u8]) -> Option<&'p Func>
        ensures { option_copied result ≡ func_named (client_funcs (world_of self.now)) name.now }
    {
        match &self.client {
            Some(client) => client.func(name),
            None => None,
        }
    }

    /// The cell that a name stands for in a frame. It takes no memory.
    pub fn cell<'a>(&self, origin: Provenance, name: &'a Name) -> Linked<'a>
        ensures { linked_at result ≡ cell_meaning (world_of self.now) (provenance_of origin) name.entry.now }
    {
        match origin {
            Provenance::Old => self.linked(Version::Old, Sort2::Cell, name),
            Provenance::New => self.linked(Version::New, Sort2::Cell, name),
            Provenance::Xform => self.linked_by_prefix(Sort2::Cell, name),
            Provenance::Client => Linked {
                part: None,
                name: name.as_bytes(),
            },
        }
    }

    /// The function that a name stands for in a frame. It takes no memory.
    pub fn function<'a>(&self, origin: Provenance, name: &'a Name) -> Function<'a>
        ensures { function_at result ≡ function_meaning (world_of self.now) (provenance_of origin) name.entry.now }
    {
        match origin {
            Provenance::Old => Function::Version(self.linked(Version::Old, Sort2::Code, name)),
            Provenance::New => Function::Version(self.linked(Version::New, Sort2::Code, name)),
            Provenance::Xform => match self.xform.func(name.as_bytes()) {
                Some(_) => Function::Xform(name.as_bytes()),
                None => Function::Version(self.linked_by_prefix(Sort2::Code, name)),
            },
            Provenance::Client => match self.client_func(name.as_bytes()) {
                Some(_) => Function::Client(name.as_bytes()),
                None => Function::Version(self.linked_by_prefix(Sort2::Code, name)),
            },
        }
    }

    /// The function of a version. It takes no memory.
    pub fn version_code(&self, version: Version, name: &[u8]) -> Definition<'p, Provenance>
        ensures { seen_definition provenance_of result ≡ version_code (world_of self.now) (version_of version) name.now }
    {
        match version {
            Version::Old => Definition {
                origin: Provenance::Old,
                func: self.first.func(name),
            },
            Version::New => Definition {
                origin: Provenance::New,
                func: self.second.func(name),
            },
        }
    }

    /// Where the body of a function was written, and the function as it is there, while a version is
    /// the current one; no function where nothing declares it. It takes no memory.
    pub fn code(&self, now: Version, function: Function<'_>) -> Definition<'p, Provenance>
        ensures { seen_definition provenance_of result ≡ code_of (world_of self.now) (version_of now) (function_at function.entry) }
    {
        match function {
            Function::Xform(name) => Definition {
                origin: Provenance::Xform,
                func: self.xform.func(name),
            },
            Function::Client(name) => Definition {
                origin: Provenance::Client,
                func: self.client_func(name),
            },
            Function::Version(Linked { part, name }) => match part {
                Some(Part::Both) => self.version_code(now, name),
                Some(Part::Old) => self.version_code(Version::Old, name),
                Some(Part::New) => self.version_code(Version::New, name),
                None => Definition {
                    origin: Provenance::Old,
                    func: None,
                },
            },
        }
    }
}
