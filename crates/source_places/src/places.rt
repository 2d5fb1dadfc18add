ghost use Rattle.std.specs.Prelude.{◌≤◌, length};

use crate::elements::{Element, elements_of};
use c_lex::{LexError, Mark, Token, TokenKind, lex};
use c_parse::{ParseError, parse_nested};
use c_tree::{RawItem, RawProgram, RawTable};
use call_places::places_of_calls;
use cap_word::ModelledCall;
use report_figures::{Position, position_of};
use report_text::Text;
use std::alloc::{AllocError, Global};
use thiserror::Error;

/// A source, and the places of its calls and functions.
#[derive(Drop)]
pub struct Places<'a> {
    /// The name of its file.
    file: &'a str,
    source: Vec<u8>,
    tokens: Vec<Token>,
    names: Names,
}

/// Why a source has no places.
#[derive(Clone, Copy, Debug, Error)]
pub enum PlacesError {
    /// The bytes aren't a source.
    #[error("the bytes are not a source")]
    Source,
    /// Out of memory.
    #[error("out of memory")]
    Memory,
}

impl From<AllocError> for PlacesError {
    fn from(_error: AllocError) -> PlacesError {
        PlacesError::Memory
    }
}

impl From<LexError> for PlacesError {
    fn from(error: LexError) -> PlacesError {
        match error {
            LexError::Memory => PlacesError::Memory,
            _ => PlacesError::Source,
        }
    }
}

impl From<ParseError> for PlacesError {
    fn from(error: ParseError) -> PlacesError {
        match error {
            ParseError::Memory => PlacesError::Memory,
            _ => PlacesError::Source,
        }
    }
}

/// The places of a source's names.
#[derive(Drop)]
struct Names {
    /// The place of each call's name, by the number of its site.
    calls: Vec<u32>,
    /// The places of the names of the functions that are defined, by number, increasing.
    functions: Vec<u32>,
    /// The places of the names of the globals that are declared, arrays and others, by number.
    globals: Vec<u32>,
    /// The tables of functions, by number.
    tables: Vec<TableNames>,
}

/// The places of the names of a table and its members.
#[derive(Drop)]
struct TableNames {
    name: u32,
    members: Vec<u32>,
}

/// An array of a function: a global one by its number, or its local ones with a given number of words.
#[derive(Clone, Copy)]
pub enum Array {
    /// A global array, by its number.
    Global(u32),
    /// The local arrays with this number of words.
    Local(u32),
}

/// An element of an array, which is read or assigned to.
#[derive(Clone, Copy)]
pub struct Access {
    /// The array of the element.
    pub array: Array,
    /// Whether a value is assigned to the element.
    pub assigns: bool,
}

impl<'a> Places<'a> {
    /// Returns the places of the source of these bytes, in the file of that name.
    ///
    /// # Errors
    ///
    /// `Source` if the bytes aren't a source, `Memory` if an allocation fails.
    pub fn read(alloc: Global, file: &'a str, source: Vec<u8>) -> Result<Places<'a>, PlacesError> {
        if source.len() > MOST_BYTES {
            return Err(PlacesError::Source);
        }
        let tokens = lex(alloc, source.as_slice())?;
        let names = names_in(alloc, source.as_slice(), tokens.as_slice())?;
        Ok(Places {
            file,
            source,
            tokens,
            names,
        })
    }

    /// Returns for each site whether its call has that name.
    pub fn sites_of(&self, alloc: Global, name: &[u8]) -> Result<Vec<bool>, AllocError> {
        let mut sites = Vec::new(alloc);
        for at in self.names.calls.as_slice() {
            sites.push(self.name_at(*at) == name)?;
        }
        Ok(sites)
    }

    /// Returns for each site whether its call is one at which a thread waits.
    pub fn waiting_sites(&self, alloc: Global) -> Result<Vec<bool>, AllocError> {
        let mut sites = Vec::new(alloc);
        for at in self.names.calls.as_slice() {
            sites.push(is_waiting_call(self.name_at(*at)))?;
        }
        Ok(sites)
    }

    /// Appends the place of a site with its callee and its function: `server.c:12:5 accept in worker`.
    pub fn put_site(&self, text: &mut Text, site: u32) {
        match self.call(site) {
            Some(at) => {
                self.put_named(text, at);
                self.put_inside(text, at)
            }
            None => text.form("site $", &[u64::from(site)]),
        }
    }

    /// Appends the same with the whole text of the call: `server.c:12:5 take(1, n) in worker`. A long text is cut off.
    pub fn put_site_text(&self, text: &mut Text, site: u32) {
        match self.call(site) {
            Some(at) => {
                self.put_place(text, at);
                put_call_text(text, self.source.as_slice(), self.tokens.as_slice(), at);
                self.put_inside(text, at)
            }
            None => text.form("site $", &[u64::from(site)]),
        }
    }

    /// Appends the text of a site's call as `put_site_text` does, or nothing if there is no such site.
    pub fn put_call(&self, text: &mut Text, site: u32) {
        if let Some(at) = self.call(site) {
            put_call_text(text, self.source.as_slice(), self.tokens.as_slice(), at)
        }
    }

    /// Appends the name of a site's call, or nothing if there is no such site.
    pub fn put_call_name(&self, text: &mut Text, site: u32) {
        if let Some(at) = self.call(site) {
            text.bytes(self.name_at(at))
        }
    }

    /// Appends the line and the column of a site whose call led to the previous one: ` < 12:5`.
    pub fn put_line_below(&self, text: &mut Text, site: u32) {
        match self.call(site) {
            Some(at) => {
                let Position { line, column } = self.position(at);
                text.form(" < $:$", &[line as u64, column as u64])
            }
            None => text.form(" < site $", &[u64::from(site)]),
        }
    }

    /// Appends the name of the function of that number, in the order of their definitions.
    pub fn put_function(&self, text: &mut Text, function: u32) {
        match self.names.functions.as_slice().get(function as usize) {
            Some(at) => text.bytes(self.name_at(*at)),
            None => text.form("function $", &[u64::from(function)]),
        }
    }

    /// Appends the place of the function of that number: `server.c:12:5`.
    pub fn put_function_place(&self, text: &mut Text, function: u32) {
        match self.names.functions.as_slice().get(function as usize) {
            Some(at) => self.put_line(text, *at),
            None => text.form("function $", &[u64::from(function)]),
        }
    }

    /// Returns the number of the function that contains a site.
    pub fn caller(&self, site: u32) -> Option<u32> {
        let at = self.call(site)?;
        let mut found = None;
        let mut number: u32 = 0;
        for function in self.names.functions.as_slice() {
            if *function <= at {
                found = Some(number);
            }
            number = number.saturating_add(1);
        }
        found
    }

    /// Returns the numbers of the functions that a site may call: the one that it names, or the members of the table
    /// that it names.
    pub fn callees(&self, alloc: Global, site: u32) -> Result<Vec<u32>, AllocError> {
        let mut callees = Vec::new(alloc);
        if let Some(at) = self.call(site) {
            self.add_named(&mut callees, at)?;
            self.add_members(&mut callees, at)?;
        }
        Ok(callees)
    }

    /// Adds the number of the function with the name at that place, if there is one.
    fn add_named(&self, callees: &mut Vec<u32>, at: u32) -> Result<(), AllocError> {
        let name = self.name_at(at);
        let mut number: u32 = 0;
        for function in self.names.functions.as_slice() {
            if self.name_at(*function) == name {
                callees.push(number)?;
            }
            number = number.saturating_add(1);
        }
        Ok(())
    }

    /// Adds the numbers of the members of the table with the name at that place, if there is one.
    fn add_members(&self, callees: &mut Vec<u32>, at: u32) -> Result<(), AllocError> {
        for table in self.names.tables.as_slice() {
            if self.name_at(table.name) == self.name_at(at) {
                self.add_all(callees, table.members.as_slice())?;
            }
        }
        Ok(())
    }

    /// Adds the numbers of the functions with the names at these places.
    fn add_all(&self, callees: &mut Vec<u32>, members: &[u32]) -> Result<(), AllocError> {
        for member in members {
            self.add_named(callees, *member)?;
        }
        Ok(())
    }

    /// Appends the places at which a function has such elements of an array, as far as the text alone determines them:
    /// up to four, and the number of others. Appends nothing if there are none.
    pub fn put_elements(&self, alloc: Global, text: &mut Text, function: u32, access: Access) {
        let number = function as usize;
        let from = self.function(number);
        let to = self.function(number.saturating_add(1));
        let Ok(elements) = elements_of(alloc, self.tokens.as_slice(), from, to) else {
            text.lack();
            return;
        };
        let mut shown: u64 = 0;
        for element in elements.as_slice() {
            if element.declared.is_none()
                && element.is_assigned == access.assigns
                && self.is_of(access.array, element.at, elements.as_slice())
            {
                if shown < SHOWN {
                    text.words(if shown == 0 { ", at " } else { " or " });
                    self.put_named(text, element.at);
                }
                shown = shown.saturating_add(1);
            }
        }
        if shown > SHOWN {
            text.words(" or at ");
            text.counted(shown - SHOWN, "more place", "more places")
        }
    }

    /// Checks whether the name at that place is that of an array, in a function with these elements and declarations.
    fn is_of(&self, array: Array, at: u32, elements: &[Element]) -> bool {
        match array {
            Array::Global(number) => match self.names.globals.as_slice().get(number as usize) {
                Some(name) => self.name_at(at) == self.name_at(*name),
                None => false,
            },
            Array::Local(words) => self.is_declared(at, words, elements),
        }
    }

    /// Checks whether the name at that place is declared as an array of this number of words.
    fn is_declared(&self, at: u32, words: u32, elements: &[Element]) -> bool {
        for element in elements {
            if element.declared == Some(words) && self.name_at(element.at) == self.name_at(at) {
                return true;
            }
        }
        false
    }

    /// Appends a place, and the name there: `server.c:12:5 accept`.
    fn put_named(&self, text: &mut Text, at: u32) {
        self.put_place(text, at);
        text.bytes(self.name_at(at))
    }

    /// Returns the place of the name of a site's call.
    fn call(&self, site: u32) -> Option<u32> {
        self.names.calls.as_slice().get(site as usize).copied()
    }

    /// Returns the place at which the function of that number begins, or one after all places if there is none.
    fn function(&self, number: usize) -> u32 {
        match self.names.functions.as_slice().get(number) {
            Some(at) => *at,
            None => u32::MAX,
        }
    }

    /// Appends the function that contains a place.
    fn put_inside(&self, text: &mut Text, at: u32) {
        if let Some(function) = function_at(self.names.functions.as_slice(), at) {
            text.words(" in ");
            text.bytes(self.name_at(function))
        }
    }

    /// Appends a place and a space: `server.c:12:5 `.
    fn put_place(&self, text: &mut Text, at: u32) {
        self.put_line(text, at);
        text.words(" ")
    }

    /// Appends a place: `server.c:12:5`.
    fn put_line(&self, text: &mut Text, at: u32) {
        let Position { line, column } = self.position(at);
        text.words(self.file);
        text.form(":$:$", &[line as u64, column as u64])
    }

    /// Returns the line and the column of a place.
    fn position(&self, at: u32) -> Position {
        let source = self.source.as_slice();
        let text = &source[..source.len().min(MOST_BYTES)];
        position_of(text, (at as usize).min(text.len()))
    }

    /// Returns the name that begins at a place.
    fn name_at(&self, at: u32) -> &[u8] {
        let rest = rest_of(self.source.as_slice(), at);
        let mut length: usize = 0;
        for byte in rest {
            if !byte.is_ascii_alphanumeric() && *byte != b'_' {
                return &rest[..length.min(rest.len())];
            }
            length = length.saturating_add(1);
        }
        rest
    }
}

/// Whether a thread waits at the call of that name.
fn is_waiting_call(name: &[u8]) -> bool {
    for call in &ModelledCall::ALL {
        if call.blocks() && call.name().as_bytes() == name {
            return true;
        }
    }
    false
}

/// The maximum size of a source in bytes.
const MOST_BYTES: usize = 1_048_576;

/// The maximum number of places that are shown for one access.
const SHOWN: u64 = 4;

/// The maximum number of bytes of a call that are shown.
const CALL_BYTES: usize = 60;

/// Returns the places of the names of a source with these tokens.
fn names_in(alloc: Global, source: &[u8], tokens: &[Token]) -> Result<Names, PlacesError>
    requires { length source.now ≤ 1048576 }
{
    let raw = parse_nested(alloc, source, tokens)?;
    let names = names_of(alloc, &raw);
    drop(raw);
    Ok(names?)
}

/// Returns the places of the names of a parsed source.
fn names_of(alloc: Global, raw: &RawProgram) -> Result<Names, AllocError> {
    let mut names = Names {
        calls: places_of_calls(alloc, raw)?,
        functions: Vec::new(alloc),
        globals: Vec::new(alloc),
        tables: Vec::new(alloc),
    };
    add_items(alloc, &mut names, raw.items())?;
    Ok(names)
}

/// Adds the places of the names of functions, globals and tables.
fn add_items(alloc: Global, names: &mut Names, items: &[RawItem]) -> Result<(), AllocError> {
    for item in items {
        match item {
            RawItem::Global { name, .. } => names.globals.push(name.at)?,
            RawItem::GlobalArray { name, .. } => names.globals.push(name.at)?,
            RawItem::Table(table) => names.tables.push(table_names(alloc, table)?)?,
            RawItem::Prototype(_) => (),
            RawItem::Function(function) => names.functions.push(function.name.at)?,
        }
    }
    Ok(())
}

/// Returns the places of the names of a table.
fn table_names(alloc: Global, table: &RawTable) -> Result<TableNames, AllocError> {
    let mut members = Vec::new(alloc);
    for member in &table.members {
        members.push(member.at)?;
    }
    Ok(TableNames {
        name: table.name.at,
        members,
    })
}

/// Appends the text of the call whose name is at that place, with one space for each white space in it.
fn put_call_text(text: &mut Text, source: &[u8], tokens: &[Token], at: u32) {
    let rest = rest_of(source, at);
    let length = end_of_call(tokens, at).saturating_sub(at) as usize;
    let shown = length.min(CALL_BYTES).min(rest.len());
    let mut was_blank = false;
    for byte in &rest[..shown] {
        let is_blank = *byte <= b' ';
        if !is_blank {
            text.bytes(&[*byte]);
        } else if !was_blank {
            text.words(" ");
        }
        was_blank = is_blank;
    }
    text.words(if shown < length { " .." } else { "" })
}

/// Returns the place after the parenthesis that closes the call whose name is at that place.
fn end_of_call(tokens: &[Token], at: u32) -> u32 {
    let mut depth: u32 = 0;
    for token in tokens {
        if token.at > at {
            match token.kind {
                TokenKind::Mark(Mark::LeftParenthesis) => depth = depth.saturating_add(1),
                TokenKind::Mark(Mark::RightParenthesis) => {
                    if depth <= 1 {
                        return token.at.saturating_add(1);
                    }
                    depth -= 1;
                }
                _ => (),
            }
        }
    }
    at
}

/// Returns the index of the last of these places that isn't after that place: the number of the function that contains
/// it.
fn function_at(functions: &[u32], at: u32) -> Option<u32> {
    let mut found = None;
    for function in functions {
        if *function <= at {
            found = Some(*function);
        }
    }
    found
}

/// Returns the bytes from a place on.
fn rest_of(source: &[u8], at: u32) -> &[u8] {
    let from = (at as usize).min(source.len());
    &source[from..]
}
