//! What a file with an issued row says.

ghost use Rattle.gu_secrets.specs.Issued.{AnIssuedSecretAdmitsItsFirm};

/// The line that is issued with a secret, read alone, has no fault, and admits the firm by the secret's text.
pub fn an_issued_secret_admits_its_firm()
    ensures { AnIssuedSecretAdmitsItsFirm }
{}
