/// The address of each global and table, and the greatest bound of each table's members: computed once, so that no
/// operation needs a search.
#[derive(Drop)]
pub struct Tables {
    pub global_addresses: Vec<u32>,
    pub table_addresses: Vec<u32>,
    pub member_bounds: Vec<u32>,
}
