//! Laws of certificates. The functions do nothing: their contracts are the laws.

ghost use Rattle.std.specs.Prelude.{◌≡◌, List, ℕ, Option};
ghost use Rattle.cert_form.specs.Certificates.{AreCerts};
ghost use Rattle.cert_form.specs.declared.cert.Cert.{Cert as CertData};

/// No text is two lists of certificates.
pub fn one_list()
    ensures { (text : List ℕ) (some other : List (Option CertData)) → AreCerts text some → AreCerts text other → some ≡ other }
{}
