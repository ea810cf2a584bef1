//! The parts of the tool, each by its own public calls, as tables of rows.
//!
//! A new row belongs in the file of its crate, as `c_places_rows` of `c_places`. `programs` gives
//! the programs of sources, and `repeats` long texts.
#![tactic(auto)]

#[cfg(test)]
mod c_places_rows;
#[cfg(test)]
mod c_reader_rows;
#[cfg(test)]
mod c_tokens_rows;
#[cfg(test)]
mod command_line_rows;
#[cfg(test)]
mod history_rows;
#[cfg(test)]
mod load_texts_rows;
#[cfg(test)]
mod map_entries_rows;
#[cfg(test)]
mod map_lang_rows;
#[cfg(test)]
mod patch_file_rows;
#[cfg(test)]
mod patch_form_rows;
#[cfg(test)]
mod programs;
#[cfg(test)]
mod repeats;
#[cfg(test)]
mod store_mem_rows;
#[cfg(test)]
mod up_base_rows;
