ghost use Rattle.std.specs.Prelude.{◌≡◌, IfOk};

use rel_lexer::Text;
use std::alloc::AllocError;
use std::marker::Model;

/// The texts of values, in their order. Contracts see the list of them.
#[derive(Drop)]
pub struct Values {
    items: Vec<Text>,
}

impl Model for Values {
    ghost use Rattle.std.specs.Prelude.{List, ℕ};

    ghost Value = { List (List ℕ) };

    ghost view = { λ v. v.items.items };
}

impl Values {
    /// The list of these texts. It takes no memory.
    pub fn from_vec(texts: Vec<Text>) -> Values
        ensures { result ≡ texts.items }
    {
        Values { items: texts }
    }

    /// The texts, to be changed. It takes no memory.
    pub fn into_vec(self) -> Vec<Text>
        ensures { result.items ≡ self }
    {
        self.items
    }

    /// The texts.
    pub fn as_slice(&self) -> &[Text]
        ensures { result.now ≡ self.now }
    {
        self.items.as_slice()
    }

    /// The same texts once more. The error is want of memory, here and below.
    pub fn copy(&self) -> Result<Values, AllocError>
        ensures { IfOk result (λ values. values ≡ self.now) }
    {
        let mut copies = Vec::new(*self.items.allocator());
        for text in self.items.as_slice() {
            copies.push(text.copy()?)?;
        }
        Ok(Values::from_vec(copies))
    }
}

/// The row of a property: what its question gave on a machine.
#[derive(Drop)]
pub struct Sampled {
    /// The name of the property.
    pub property: Text,
    /// Seconds since 1970-01-01 00:00:00 UTC, from 0 to 137,438,953,472 (2^37).
    pub moment: i64,
    /// At most 100, each of at most 1,024 bytes.
    pub values: Values,
    /// Whether an error ended the drawing, or a value whose text is longer.
    pub error: bool,
}

impl Sampled {
    /// The same row once more.
    pub fn copy(&self) -> Result<Sampled, AllocError>
        ensures { IfOk result (λ row. row ≡ self.now) }
    {
        Ok(Sampled {
            property: self.property.copy()?,
            moment: self.moment,
            values: self.values.copy()?,
            error: self.error,
        })
    }
}

/// Rows in their order. Contracts see the list of them.
#[derive(Drop)]
pub struct SampledRows {
    items: Vec<Sampled>,
}

impl Model for SampledRows {
    ghost use Rattle.std.specs.Prelude.{List};
    ghost use Rattle.group_sample.specs.declared.sample.Sampled.{Sampled};

    ghost Value = { List Sampled };

    ghost view = { λ r. r.items.items };
}

impl SampledRows {
    /// The list of these rows. It takes no memory.
    pub fn from_vec(rows: Vec<Sampled>) -> SampledRows
        ensures { result ≡ rows.items }
    {
        SampledRows { items: rows }
    }

    /// The rows, to be changed. It takes no memory.
    pub fn into_vec(self) -> Vec<Sampled>
        ensures { result.items ≡ self }
    {
        self.items
    }

    /// The rows.
    pub fn as_slice(&self) -> &[Sampled]
        ensures { result.now ≡ self.now }
    {
        self.items.as_slice()
    }

    /// The same rows once more.
    pub fn copy(&self) -> Result<SampledRows, AllocError>
        ensures { IfOk result (λ rows. rows ≡ self.now) }
    {
        let mut copies = Vec::new(*self.items.allocator());
        for row in self.items.as_slice() {
            copies.push(row.copy()?)?;
        }
        Ok(SampledRows::from_vec(copies))
    }
}

/// What was measured on a computer at one moment.
#[derive(Drop)]
pub struct Sample {
    /// The name of the computer.
    pub computer: Text,
    /// The number of the sample among those of its analyst, from 1.
    pub seq: u64,
    /// One for each property that was due and did not fail.
    pub rows: SampledRows,
    /// How many properties were due and failed.
    pub failed: u32,
}

impl Sample {
    /// The same sample once more.
    pub fn copy(&self) -> Result<Sample, AllocError>
        ensures { IfOk result (λ sample. sample ≡ self.now) }
    {
        Ok(Sample {
            computer: self.computer.copy()?,
            seq: self.seq,
            rows: self.rows.copy()?,
            failed: self.failed,
        })
    }
}
