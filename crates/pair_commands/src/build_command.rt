// The command `build`: a source is built into an image and a certificate.
ghost use Rattle.std.specs.Prelude.{ℕ, List, Option, ◌≡◌, ◌++◌, ◌≤◌, length, MatchResult, IfOk, OnOk};
ghost use Rattle.cap_io.specs.Files.{KeepsFiles};
ghost use Rattle.c_tree.specs.ProgramView.{program_tree};
ghost use Rattle.codegen_link.specs.Plans.{AreInRange};
ghost use Rattle.stack_image.specs.Spelling as images;
ghost use Rattle.certificate_text.specs.Text as texts;
ghost use Rattle.command_files.specs.Loads.{AfterSource};
ghost use Rattle.pair_commands.specs.BuildsFiles.{Builds, BuildsProgram, built_line, IsProductsOf, stored_products};
ghost use Rattle.command_outcomes.specs.Steps.{EndsAs, IsStatus, IsStop, IsShelfStop};
ghost use Rattle.command_outcomes.specs.Done.{Outside, outside_beside};

use crate::layouts::layout_stop;
use c_tree::Program;
use cap_io::{Shelf, Sink};
use certificate_text::write_cert;
use codegen_link::Options;
use command_files::{load, read_source, store_both};
use command_outcomes::{Document, Fault, Stop, print, put_number, put_text};
use stack_build::{Built, lay_out};
use stack_image::{Image, write_image};
use std::alloc::{AllocError, Global};

/// What a build writes.
#[derive(Drop)]
pub struct Products {
    /// The bytes of the image.
    pub image: Vec<u8>,
    /// The text of the certificate.
    pub certificate: Vec<u8>,
    /// The line about the image.
    pub line: Vec<u8>,
}

/// Does the command `build`: builds a source, stores the image and then the certificate, and writes their sizes to
/// `out`. Returns status 0.
///
/// The options are in their ranges.
///
/// # Errors
///
/// `Refused` if the source is absent, too long or no program, or a frame or the code is too large. `Failed` with `Read`
/// only if a load failed, with `Write` only if a store or a write failed, and with `Memory` if an allocation fails.
/// After a failed store the file has its old contents or a prefix of the new; the image is stored before the
/// certificate.
pub fn do_build<F: Shelf, K: Sink>(
    alloc: Global,
    shelf: &mut F,
    out: &mut K,
    source: &str,
    image: &str,
    certificate: &str,
    options: Options,
) -> Result<u8, Stop>
    requires { AreInRange options }
    ensures { (left : Option (List ℕ)) (reads : ℕ) →
        let outside = outside_beside F.files F.load_faults F.store_faults left reads K.taken K.faults in
        let before : Outside = outside shelf.old out.old in
        let after : Outside = outside shelf.new out.new in
        EndsAs IsStatus (Builds before.files source.now image.now certificate.now options) before after
        result }
{
    let products = build_source(alloc, shelf, source, options)?;
    store_both(
        alloc,
        shelf,
        image,
        products.image.as_slice(),
        certificate,
        products.certificate.as_slice(),
    )?;
    print(out, products.line.as_slice(), 0)
}

/// Builds the source of this name.
fn build_source<F: Shelf>(
    alloc: Global,
    shelf: &mut F,
    name: &str,
    options: Options,
) -> Result<Products, Stop>
    requires { AreInRange options }
    ensures answer { (image certificate : List ℕ) → MatchResult result
        (λ products. Builds (F.files shelf.old) name.now image certificate options
        (stored_products image certificate products)
        × (F.load_faults shelf.new ≡ F.load_faults shelf.old))
        (IsShelfStop (Builds (F.files shelf.old) name.now image certificate options)
        (F.load_faults shelf.old) (F.load_faults shelf.new)) }
    ensures files { KeepsFiles (F.files shelf.old) (F.files shelf.new) }
    ensures stores { F.store_faults shelf.new ≡ F.store_faults shelf.old }
{
    let source = load(alloc, shelf, Document::Source, name)?;
    build_bytes(alloc, source.as_slice(), options)
}

/// Builds a source of these bytes.
fn build_bytes(alloc: Global, source: &[u8], options: Options) -> Result<Products, Stop>
    requires range { AreInRange options }
    requires few { length source.now ≤ 1048576 }
    ensures { (image certificate : List ℕ) → MatchResult result
        (λ products. AfterSource source.now (BuildsProgram options image certificate)
        (stored_products image certificate products))
        (IsStop (AfterSource source.now (BuildsProgram options image certificate))) }
{
    let program = read_source(alloc, source)?;
    let products = build_program(alloc, &program, options);
    drop(program);
    products
}

/// Builds a program.
fn build_program(alloc: Global, program: &Program, options: Options) -> Result<Products, Stop>
    requires { AreInRange options }
    ensures { (image certificate : List ℕ) → MatchResult result
        (λ products. BuildsProgram options image certificate (program_tree program.now)
        (stored_products image certificate products))
        (IsStop (BuildsProgram options image certificate (program_tree program.now))) }
{
    let built = match lay_out(alloc, program, options) {
        Ok(built) => built,
        Err(error) => return Err(layout_stop(alloc, program, options, error)),
    };
    let products = products_of(alloc, &built);
    drop(built);
    match products {
        Ok(products) => Ok(products),
        Err(AllocError) => Err(Stop::Failed(Fault::Memory)),
    }
}

/// Returns the bytes of an image and a certificate, and the line about the image.
fn products_of(alloc: Global, built: &Built) -> Result<Products, AllocError>
    requires image { images.IsWithinLimits built.now.image }
    requires certificate { texts.IsWithinLimits built.now.certificate }
    ensures { IfOk result (λ products.
        IsProductsOf built.now.image built.now.certificate products) }
{
    let image = write_image(alloc, &built.image)?;
    let certificate = write_cert(alloc, &built.certificate)?;
    let mut line = Vec::new(alloc);
    put_built(&mut line, &built.image)?;
    Ok(Products {
        image,
        certificate,
        line,
    })
}

/// Appends the line about an image.
fn put_built(line: &mut Vec<u8>, image: &Image) -> Result<(), AllocError>
    ensures { OnOk result (line.new.items ≡ line.old.items ++ built_line image.now) }
{
    put_text(line, b"built code ")?;
    put_number(line, image.code.len() as u64)?;
    put_text(line, b" globals ")?;
    put_number(line, image.globals.len() as u64)?;
    put_text(line, b" tables ")?;
    put_number(line, image.tables.len() as u64)?;
    put_text(line, b"\n")
}
