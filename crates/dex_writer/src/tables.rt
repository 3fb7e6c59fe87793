ghost use Rattle.std.specs.Prelude.{◌≡◌, ◌++◌, IfOk, OnOk, map};
ghost use Rattle.std.specs.List.{flat_map};
ghost use Rattle.dex_writer.specs.Tables.{letter, shorty, string_index, type_index, proto_row, proto_index};
ghost use Rattle.dex_writer.specs.Tables.{field_row, field_index, method_row, method_index, no_tables};
ghost use Rattle.dex_writer.specs.Tables.{with_string, with_type, with_types, proto_types, with_proto, for_field};
ghost use Rattle.dex_writer.specs.Tables.{for_method, with_field, with_method, and_field, and_method};

use crate::id_row::IdRow;
use crate::interner::Interner;
use std::alloc::Global;
use vet_base::{Memory, Name};

/// The five id tables of a file.
#[derive(Drop)]
pub struct Tables {
    pub strings: Interner<Name>,
    /// The string that describes each type.
    pub types: Interner<u32>,
    /// The string that is its shorty, the type of the result, and then those of the parameters.
    pub protos: Interner<IdRow>,
    /// The type of the class, the type of the value, and the string that names the field.
    pub fields: Interner<IdRow>,
    /// The type of the class, the proto, and the string that names the method.
    pub methods: Interner<IdRow>,
}

fn put_letter(letters: &mut Vec<u8>, kind: &Name) -> Result<(), Memory>
    ensures { OnOk result (letters.new.items ≡ letters.old.items ++ letter kind.now) }
{
    match kind.as_bytes() {
        [] => Ok(()),
        [b'[', ..] => Ok(letters.push(b'L')?),
        [first, ..] => Ok(letters.push(*first)?),
    }
}

fn put_letters(letters: &mut Vec<u8>, kinds: &[Name]) -> Result<(), Memory>
    ensures { OnOk result (letters.new.items ≡ letters.old.items ++ flat_map letter kinds.now) }
{
    for kind in kinds {
        put_letter(letters, kind)?;
    }
    Ok(())
}

/// The short form of a method's descriptor: a byte for the result and one for each parameter.
#[tactic(auto, unfolding(crate::specs::Tables::shorty))]
fn shorty_of(alloc: Global, params: &[Name], ret: &Name) -> Result<Name, Memory>
    ensures { IfOk result (λ n. n ≡ shorty params.now ret.now) }
{
    let mut letters = Vec::new(alloc);
    put_letter(&mut letters, ret)?;
    put_letters(&mut letters, params)?;
    Name::new(alloc, letters)
}

impl Tables {
    pub fn new(alloc: Global) -> Self
        ensures { result ≡ no_tables }
    {
        Tables {
            strings: Interner::new(alloc),
            types: Interner::new(alloc),
            protos: Interner::new(alloc),
            fields: Interner::new(alloc),
            methods: Interner::new(alloc),
        }
    }

    #[tactic(auto, unfolding(crate::specs::Tables::string_index))]
    pub fn string_index(&self, name: &Name) -> u32
        ensures { result ≡ string_index self.now name.now }
    {
        self.strings.place(name).unwrap_or(0)
    }

    #[tactic(auto, unfolding(crate::specs::Tables::type_index))]
    pub fn type_index(&self, name: &Name) -> u32
        ensures { result ≡ type_index self.now name.now }
    {
        let string = self.string_index(name);
        self.types.place(&string).unwrap_or(0)
    }

    #[tactic(auto, unfolding(crate::specs::Tables::proto_row))]
    fn proto_row(&self, alloc: Global, params: &[Name], ret: &Name) -> Result<IdRow, Memory>
        ensures { IfOk result (λ r. r ≡ proto_row self.now params.now ret.now) }
    {
        let shorty = shorty_of(alloc, params, ret)?;
        let mut numbers = Vec::new(alloc);
        numbers.push(self.string_index(&shorty))?;
        numbers.push(self.type_index(ret))?;
        for kind in params {
            numbers.push(self.type_index(kind))?;
        }
        IdRow::new(alloc, numbers)
    }

    #[tactic(auto, unfolding(crate::specs::Tables::proto_index))]
    pub fn proto_index(&self, alloc: Global, params: &[Name], ret: &Name) -> Result<u32, Memory>
        ensures { IfOk result (λ i. i ≡ proto_index self.now params.now ret.now) }
    {
        let row = self.proto_row(alloc, params, ret)?;
        Ok(self.protos.place(&row).unwrap_or(0))
    }

    #[tactic(auto, unfolding(crate::specs::Tables::field_row))]
    fn field_row(
        &self,
        alloc: Global,
        class: &Name,
        name: &Name,
        kind: &Name,
    ) -> Result<IdRow, Memory>
        ensures { IfOk result (λ r. r ≡ field_row self.now class.now name.now kind.now) }
    {
        let numbers = [
            self.type_index(class),
            self.type_index(kind),
            self.string_index(name),
        ];
        IdRow::new(alloc, numbers.to_vec(alloc)?)
    }

    #[tactic(auto, unfolding(crate::specs::Tables::field_index))]
    pub fn field_index(
        &self,
        alloc: Global,
        class: &Name,
        name: &Name,
        kind: &Name,
    ) -> Result<u32, Memory>
        ensures { IfOk result (λ i. i ≡ field_index self.now class.now name.now kind.now) }
    {
        let row = self.field_row(alloc, class, name, kind)?;
        Ok(self.fields.place(&row).unwrap_or(0))
    }

    #[tactic(auto, unfolding(crate::specs::Tables::method_row))]
    fn method_row(
        &self,
        alloc: Global,
        class: &Name,
        name: &Name,
        params: &[Name],
        ret: &Name,
    ) -> Result<IdRow, Memory>
        ensures { IfOk result (λ r. r ≡ method_row self.now class.now name.now params.now ret.now) }
    {
        let numbers = [
            self.type_index(class),
            self.proto_index(alloc, params, ret)?,
            self.string_index(name),
        ];
        IdRow::new(alloc, numbers.to_vec(alloc)?)
    }

    #[tactic(auto, unfolding(crate::specs::Tables::method_index))]
    pub fn method_index(
        &self,
        alloc: Global,
        class: &Name,
        name: &Name,
        params: &[Name],
        ret: &Name,
    ) -> Result<u32, Memory>
        ensures { IfOk result (λ i. i ≡ method_index self.now class.now name.now params.now ret.now) }
    {
        let row = self.method_row(alloc, class, name, params, ret)?;
        Ok(self.methods.place(&row).unwrap_or(0))
    }

    #[tactic(auto, unfolding(crate::specs::Tables::with_string))]
    pub fn add_string(&mut self, name: &Name) -> Result<(), Memory>
        ensures { OnOk result (self.new ≡ with_string self.old name.now) }
    {
        self.strings.add(name.copy()?)
    }

    #[tactic(auto, unfolding(crate::specs::Tables::with_type))]
    pub fn add_type(&mut self, name: &Name) -> Result<(), Memory>
        ensures { OnOk result (self.new ≡ with_type self.old name.now) }
    {
        self.add_string(name)?;
        let string = self.string_index(name);
        self.types.add(string)
    }

    pub fn add_types(&mut self, names: &[Name]) -> Result<(), Memory>
        ensures { OnOk result (self.new ≡ with_types self.old names.now) }
    {
        for name in names {
            self.add_type(name)?;
        }
        Ok(())
    }

    #[tactic(auto, unfolding(crate::specs::Tables::with_proto, crate::specs::Tables::proto_types))]
    fn add_proto(&mut self, alloc: Global, params: &[Name], ret: &Name) -> Result<(), Memory>
        ensures { OnOk result (self.new ≡ with_proto self.old params.now ret.now) }
    {
        let shorty = shorty_of(alloc, params, ret)?;
        self.add_string(&shorty)?;
        self.add_type(ret)?;
        self.add_types(params)?;
        let row = self.proto_row(alloc, params, ret)?;
        self.protos.add(row)
    }

    /// Names what a row of `field_ids` needs, and gives the row.
    #[tactic(auto, unfolding(crate::specs::Tables::for_field))]
    fn add_for_field(
        &mut self,
        alloc: Global,
        class: &Name,
        name: &Name,
        kind: &Name,
    ) -> Result<IdRow, Memory>
        ensures table { OnOk result (self.new ≡ for_field self.old class.now name.now kind.now) }
        ensures row { IfOk result (λ r. r ≡ field_row self.new class.now name.now kind.now) }
    {
        self.add_type(class)?;
        self.add_type(kind)?;
        self.add_string(name)?;
        self.field_row(alloc, class, name, kind)
    }

    /// A field that an instruction names.
    #[tactic(auto, unfolding(crate::specs::Tables::with_field))]
    pub fn add_field(
        &mut self,
        alloc: Global,
        class: &Name,
        name: &Name,
        kind: &Name,
    ) -> Result<(), Memory>
        ensures { OnOk result (self.new ≡ with_field self.old class.now name.now kind.now) }
    {
        let row = self.add_for_field(alloc, class, name, kind)?;
        self.fields.add(row)
    }

    /// A field of a class: it has a row of its own.
    #[tactic(auto, unfolding(crate::specs::Tables::and_field))]
    pub fn push_field(
        &mut self,
        alloc: Global,
        class: &Name,
        name: &Name,
        kind: &Name,
    ) -> Result<(), Memory>
        ensures { OnOk result (self.new ≡ and_field self.old class.now name.now kind.now) }
    {
        let row = self.add_for_field(alloc, class, name, kind)?;
        self.fields.push(row)
    }

    /// Names what a row of `method_ids` needs, and gives the row.
    #[tactic(auto, unfolding(crate::specs::Tables::for_method))]
    fn add_for_method(
        &mut self,
        alloc: Global,
        class: &Name,
        name: &Name,
        params: &[Name],
        ret: &Name,
    ) -> Result<IdRow, Memory>
        ensures table { OnOk result (self.new ≡ for_method self.old class.now name.now params.now ret.now) }
        ensures row { IfOk result (λ r. r ≡ method_row self.new class.now name.now params.now ret.now) }
    {
        self.add_type(class)?;
        self.add_proto(alloc, params, ret)?;
        self.add_string(name)?;
        self.method_row(alloc, class, name, params, ret)
    }

    /// A method that an instruction names.
    #[tactic(auto, unfolding(crate::specs::Tables::with_method))]
    pub fn add_method(
        &mut self,
        alloc: Global,
        class: &Name,
        name: &Name,
        params: &[Name],
        ret: &Name,
    ) -> Result<(), Memory>
        ensures { OnOk result (self.new ≡ with_method self.old class.now name.now params.now ret.now) }
    {
        let row = self.add_for_method(alloc, class, name, params, ret)?;
        self.methods.add(row)
    }

    /// A method of a class: it has a row of its own.
    #[tactic(auto, unfolding(crate::specs::Tables::and_method))]
    pub fn push_method(
        &mut self,
        alloc: Global,
        class: &Name,
        name: &Name,
        params: &[Name],
        ret: &Name,
    ) -> Result<(), Memory>
        ensures { OnOk result (self.new ≡ and_method self.old class.now name.now params.now ret.now) }
    {
        let row = self.add_for_method(alloc, class, name, params, ret)?;
        self.methods.push(row)
    }
}
