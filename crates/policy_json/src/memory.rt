//! Memory: blocks, and regions with their contents.
ghost use Rattle.std.specs.Prelude.{◌≡◌};
ghost use Rattle.serde_json.specs.View.{view};
ghost use Rattle.policy_json.specs.Table.{content_of, is_one_content};

use crate::object::{Object, has, if_present, list, optional, require, required};
use crate::values::Hexadecimal;
use muen_num::Name;
use muen_num::limits::PAGE;
use policy_types::source::{Block, Content, Region};
use policy_types::{Caching, Want};
use policy_values::ReadError;
use serde_json::Value;
use std::alloc::Global;

#[tactic(auto, unfolding(crate::specs::Table::block))]
impl Object for Block {
    ghost use Rattle.policy_json.specs.Table.{block};

    ghost object = { block };

    fn keys() -> &'static [&'static str] {
        &["name", "physicalAddress", "size"]
    }

    fn read_fields(alloc: Global, value: &Value) -> Result<Block, ReadError> {
        Ok(Block {
            name: required(alloc, value, "name")?,
            physical_address: required(alloc, value, "physicalAddress")?,
            size: required(alloc, value, "size")?,
        })
    }
}

#[tactic(auto, unfolding(crate::specs::Table::is_one_content))]
fn is_one_content(value: &Value) -> bool
    ensures { result ≡ is_one_content (view value.now) }
{
    let fill = has(value, "fill");
    let hex = has(value, "hex");
    if has(value, "file") {
        return !fill && !hex;
    }
    if has(value, "offset") || has(value, "length") {
        return false;
    }
    fill != hex
}

fn content_of(
    fill: Option<u8>,
    hex: Option<Hexadecimal>,
    file: Option<Name>,
    offset: u64,
    length: Option<u64>,
) -> Content
    ensures { result ≡ content_of fill hex file offset length }
{
    if let Some(name) = file {
        return Content::File {
            name,
            offset,
            length,
        };
    }
    match hex {
        Some(Hexadecimal { bytes }) => Content::Inline(bytes),
        None => match fill {
            Some(byte) => Content::Fill(byte),
            None => Content::Zero,
        },
    }
}

#[tactic(auto, unfolding(crate::specs::Table::content, crate::specs::Table::one_content))]
impl Object for Content {
    ghost use Rattle.policy_json.specs.Table.{content};

    ghost object = { content };

    fn keys() -> &'static [&'static str] {
        &["fill", "hex", "file", "offset", "length"]
    }

    fn read_fields(alloc: Global, value: &Value) -> Result<Content, ReadError> {
        require(alloc, is_one_content(value), Want::OneContent)?;
        let fill = if_present(alloc, value, "fill")?;
        let hex = if_present(alloc, value, "hex")?;
        let file = if_present(alloc, value, "file")?;
        let offset = optional(alloc, value, "offset", 0)?;
        let length = if_present(alloc, value, "length")?;
        Ok(content_of(fill, hex, file, offset, length))
    }
}

#[tactic(auto, unfolding(crate::specs::Table::region))]
impl Object for Region {
    ghost use Rattle.policy_json.specs.Table.{region};

    ghost object = { region };

    fn keys() -> &'static [&'static str] {
        &[
            "name",
            "size",
            "caching",
            "alignment",
            "physicalAddress",
            "content",
            "sharedMemory",
        ]
    }

    fn read_fields(alloc: Global, value: &Value) -> Result<Region, ReadError> {
        Ok(Region {
            name: required(alloc, value, "name")?,
            size: required(alloc, value, "size")?,
            caching: optional(alloc, value, "caching", Caching::Wb)?,
            alignment: optional(alloc, value, "alignment", PAGE)?,
            physical_address: if_present(alloc, value, "physicalAddress")?,
            content: optional(alloc, value, "content", Content::Zero)?,
            shared_memory: list(alloc, value, "sharedMemory")?,
        })
    }
}
