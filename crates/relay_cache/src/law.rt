// What holds of the files that are kept, whatever files are asked for and whatever the upstream gives.
ghost use Rattle.std.specs.Prelude.{◌≡◌, ℕ, List, All, Some, Contains};
ghost use Rattle.std.specs.declared.option.Option.{Option};
ghost use Rattle.relay_cache.specs.CachedFiles.{HasItsDigest, cached};
ghost use Rattle.relay_cache.specs.FileRequests.{FileRequest, GivesGenuine, IsGivenBy, files_after};

/// The bytes that are kept of a file were given by the upstream when that file was asked for.
pub fn a_kept_file_was_given()
    ensures { (room : ℕ) (requests : List FileRequest) (digest bytes : List ℕ) → cached digest (files_after room requests) ≡ Some bytes
        → Contains requests (record { digest = digest; given = Some bytes }) }
{}

/// Where the upstream gives no file of another digest than was asked for, none is kept.
pub fn a_kept_file_has_its_digest()
    ensures { (room : ℕ) (requests : List FileRequest) → All GivesGenuine requests → All HasItsDigest (files_after room requests) }
{}

/// What is kept of a file is what an upstream gives that gives each file always the same.
pub fn a_steady_upstream_gives_it_again()
    ensures { (upstream : List ℕ → Option (List ℕ)) (room : ℕ) (requests : List FileRequest) (digest bytes : List ℕ)
        → All (IsGivenBy upstream) requests → cached digest (files_after room requests) ≡ Some bytes → upstream digest ≡ Some bytes }
{}
