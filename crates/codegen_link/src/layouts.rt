use checkpoint_place::Plan;
use flat_code::FlatProgram;
use stack_certificate::Certificate;

// A program with its plan and certificate, and what the words of its code need from all of it.
#[derive(Drop)]
pub(crate) struct Layout<'a> {
    pub(crate) flat: &'a FlatProgram,
    pub(crate) plan: &'a Plan,
    pub(crate) certificate: &'a Certificate,
    // The greatest bound of each table's members.
    pub(crate) needs: Vec<u32>,
    // The address of each global.
    pub(crate) globals: Vec<u32>,
    // The address of each table.
    pub(crate) tables: Vec<u32>,
}
