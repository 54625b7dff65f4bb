//! Extension types: a name and metadata over a storage type.

ghost use Rattle.std.specs.Prelude.{◌≡◌};
ghost use Rattle.vortex_dtype.specs.Words.{GivesOrNoMemory, ext_of, nullable_extension, type_of};

use super::copies::copy_extension;
use super::{DType, ExtDType};
use crate::buffer::{BufferString, ByteBuffer};
use crate::error::VortexError;
use std::alloc::Global;
use std::mem;

impl ExtDType {
    /// The extension with this id and metadata over this storage type. `OutOfMemory` if there is no
    /// memory for it.
    ///
    /// Ports `ExtDType::try_new`, which also asks the extension whether it takes the storage.
    pub fn new(
        alloc: Global,
        id: BufferString,
        metadata: ByteBuffer,
        storage: DType,
    ) -> Result<ExtDType, VortexError>
        ensures { GivesOrNoMemory (λ extension. ext_of extension
            ≡ record { id = id; metadata = metadata; storage = type_of storage }) result }
    {
        Ok(ExtDType {
            id,
            metadata,
            storage: Box::new(alloc, storage)?,
        })
    }

    /// The id.
    pub fn id(&self) -> &BufferString
        ensures { result.now ≡ (ext_of self.now).id }
    {
        &self.id
    }

    /// The metadata.
    pub fn metadata(&self) -> &ByteBuffer
        ensures { result.now ≡ (ext_of self.now).metadata }
    {
        &self.metadata
    }

    /// The storage type.
    pub fn storage_dtype(&self) -> &DType
        ensures tree { type_of result.now ≡ (ext_of self.now).storage }
    {
        &self.storage
    }

    /// A copy. `OutOfMemory` if there is no memory for it.
    pub fn clone(&self, alloc: Global) -> Result<ExtDType, VortexError>
        ensures { GivesOrNoMemory (λ copy. ext_of copy ≡ ext_of self.now) result }
    {
        copy_extension(alloc, self)
    }

    /// This extension, with its storage type made nullable in its box.
    #[cycle(as_nullable)]
    pub(super) fn as_nullable(self) -> ExtDType
        ensures { ext_of result ≡ nullable_extension (ext_of self) }
    {
        let ExtDType {
            id,
            metadata,
            mut storage,
        } = self;
        let inner = mem::replace(&mut *storage, DType::Null);
        *storage = inner.as_nullable();
        ExtDType {
            id,
            metadata,
            storage,
        }
    }
}
