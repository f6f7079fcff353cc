//! What the worked rows don't say: hostile texts, closures, calls of bytes, types, and what is boxed.
mod classes;
mod entities;
mod html_kinds;
mod html_tag;
mod links;
mod list_items;
mod reference_definitions;
mod runs;
mod text_lines;
mod unescaping;
