ghost use Rattle.std.specs.Prelude.{◌≡◌, IfOk};

use ms_base::Bytes;
use std::alloc::{AllocError, Global};
use std::marker::Model;

/// Strings, each of which may be undefined. Contracts see their list.
#[derive(Drop)]
pub struct Texts {
    texts: Vec<Option<Bytes>>,
}

impl Model for Texts {
    ghost use Rattle.std.specs.Prelude.{List, ℕ, Option};
    ghost use Rattle.std.specs.Coded.{coded_list, coded_ℕ, coded_option};

    ghost Value = { List (Option (List ℕ)) };

    ghost coded = { coded_list (coded_option (coded_list coded_ℕ)) };

    ghost view = { λ t. t.texts.items };
}

impl Texts {
    /// Takes the vector as it is, and no memory.
    pub fn from_vec(texts: Vec<Option<Bytes>>) -> Texts
        ensures { result ≡ texts.items }
    {
        Texts { texts }
    }

    pub fn into_vec(self) -> Vec<Option<Bytes>>
        ensures { result.items ≡ self }
    {
        self.texts
    }

    pub fn as_slice(&self) -> &[Option<Bytes>]
        ensures { result.now ≡ self.now }
    {
        self.texts.as_slice()
    }

    pub fn copy(&self, alloc: Global) -> Result<Texts, AllocError>
        ensures { IfOk result (λ copied. copied ≡ self.now) }
    {
        let mut texts = Vec::new(alloc);
        for text in &self.texts {
            texts.push(copy_text(alloc, text)?)?;
        }
        Ok(Texts { texts })
    }
}

fn copy_text(alloc: Global, text: &Option<Bytes>) -> Result<Option<Bytes>, AllocError>
    ensures { IfOk result (λ copied. copied ≡ text.now) }
{
    match text {
        Some(text) => Ok(Some(text.copy(alloc)?)),
        None => Ok(None),
    }
}
