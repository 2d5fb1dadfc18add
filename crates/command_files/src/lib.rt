// The files of a command: loads, reads and stores them.
//
// In: a shelf of files and their names. Out: the bytes of a file (`load`) or of the three files of a pair
// (`load_three`); the program, image or certificate as which bytes are read (`read_source` and the like); files stored
// one after another (`store_both`); or the `Stop` of command_outcomes that ends the command. specs/Loads.antt defines
// the outcomes that are due for the files; specs/Steps.antt of command_outcomes defines the results of a step.
#![tactic(auto)]

mod loading;
mod stores;

pub use loading::{
    LoadedFiles, load, load_three, read_certificate_bytes, read_image_bytes, read_source,
};
pub use stores::store_both;
