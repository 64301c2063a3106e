use anyhow::{Context, Result};
use std::alloc::Global;

/// Names of bytes, each as it stands in a line.
#[derive(Drop)]
pub struct Names<'a> {
    names: Vec<(&'a str, String)>,
}

impl<'a> Names<'a> {
    /// No names.
    pub fn new(alloc: Global) -> Names<'a> {
        Names {
            names: Vec::new(alloc),
        }
    }

    /// What a name stands for.
    fn get(&self, name: &str) -> Result<&str> {
        let found = self.names.iter().find(|named| named.0 == name);
        Ok(found.context("no such name")?.1.as_str())
    }

    /// A line with each `$NAME` between spaces replaced. Bytes that follow one another stand parted by spaces.
    pub fn put_in(&self, alloc: Global, line: &str) -> Result<String> {
        let mut whole = String::new(alloc);
        for word in line.split(' ') {
            if !whole.is_empty() {
                whole.push(' ')?;
            }
            match word.strip_prefix('$') {
                Some(name) => whole.push_str(self.get(name)?)?,
                None => whole.push_str(word)?,
            }
        }
        Ok(whole)
    }

    /// Names what stands behind the first space.
    pub fn add(&mut self, alloc: Global, naming: &'a str) -> Result<()> {
        let (name, bytes) = naming.split_once(' ').context("a name of nothing")?;
        let whole = self.put_in(alloc, bytes)?;
        self.names.push((name, whole))?;
        Ok(())
    }
}
