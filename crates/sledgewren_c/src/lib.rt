// The functions that C calls (include/sledgewren.h), for the archive: each calls the library's function of its name, and
// promises what that one promises. One export for each name that C knows.
#![tactic(auto)]

mod desk;
mod lists;
mod numbers;
mod opinions;
mod plays;
mod pockets;
mod set_file;
mod steps;
mod tables;
mod typed_number;
mod version;
